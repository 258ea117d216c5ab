ghost use Rattle.std.specs.Prelude.{◌≡◌, true, false};

use mesh::fault::Fault;

// The right to finish or withdraw the level in work. It bears the mark number of its bench.
pub struct Slip {
    mark: u32,
    // whether it has been spent; no slip that is handed out has been.
    // A field, since the checker refuses a drop that can never be called
    spent: bool,
}

// Only a slip that has been spent may be let go, and spending takes it apart, so of a slip that is held nobody can show it.
// So a slip ends in a finish or a withdraw alone.
impl Drop for Slip {
    fn drop(self)
        requires { self.spent ≡ true }
    {
        let Slip { mark: _, spent: _ } = self;
    }
}

impl Slip {
    pub(super) fn new(mark: u32) -> Self
        ensures bears { result.mark ≡ mark }
        ensures unspent { result.spent ≡ false }
    {
        Slip { mark, spent: false }
    }

    pub fn mark(&self) -> u32
        ensures { result ≡ self.now.mark }
    {
        self.mark
    }

    pub(super) fn spend(self) -> u32
        ensures { result ≡ self.mark }
    {
        let Slip { mark, spent: _ } = self;
        mark
    }
}

// A finish or a withdraw that was refused: why, and the slip again.
pub struct Declined {
    pub fault: Fault,
    pub slip: Slip,
}
