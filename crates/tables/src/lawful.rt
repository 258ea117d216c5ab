// Tables that were judged: they are a lawful mesh, so what is read of them needs no test.
ghost use Rattle.std.specs.Prelude.{◌≡◌, IfOk};
ghost use Rattle.mesh.specs.Causes.{judge};
ghost use Rattle.mesh.specs.Mesh.{Lawful};
ghost use Rattle.mesh.specs.Refusals.{told};
ghost use Rattle.refinement.proofs.OneProof.{lawful_once};
ghost use Rattle.tables.specs.Lent.{mesh};

use crate::lent::Tables;
use mesh::fault::Fault;

#[derive(Clone, Copy, PartialEq, Eq, Debug)]
pub struct LawfulTables<'a> {
    pub tables: Tables<'a>,
    pub ghost lawful: { Lawful (mesh tables) } by { lawful_once (mesh tables) },
}

impl<'a> LawfulTables<'a> {
    // The tables, where they are a lawful mesh; else the first cause against it by number, at its first place.
    pub fn judged(tables: Tables<'a>) -> Result<LawfulTables<'a>, Fault>
        ensures verdict { told result ≡ judge (mesh tables.entry) }
        ensures held { IfOk result (λ it. it.tables ≡ tables.entry) }
    {
        tables.judge()?;
        Ok(LawfulTables { tables })
    }
}
