ghost use Rattle.std.specs.Prelude.{◌≡◌, IfErr};
ghost use Rattle.chain.specs.Calls.{withdraw};
ghost use Rattle.chain.specs.Clauses.{Called};
ghost use Rattle.bench.specs.Model.{state, told_slip, ComesBack};

use super::Bench;
use super::slip::{Declined, Slip};
use crate::stage::Stage;

impl<'a> Bench<'a> {
    // Drops the level in work.
    pub fn withdraw(&mut self, slip: Slip) -> Result<(), Declined>
        ensures call { Called (state self.old) (withdraw slip.mark) (state self.new) (told_slip result) }
        ensures slip { ComesBack result slip.mark }
        ensures unspent { IfErr result (λ d. d.slip.spent ≡ slip.spent) }
    {
        let (size, slip) = self.closes(slip)?;
        slip.spend();
        self.stage = Stage::Standing(size);
        Ok(())
    }
}
