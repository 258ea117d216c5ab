// The calls on a bench: from the rows of its standing level to those of the next.
ghost use Rattle.std.specs.Prelude.{◌≡◌, map, length, MatchResult, OnOk};
ghost use Rattle.bench.specs.Model.{state};
ghost use Rattle.carried.specs.Blends.{values as values_of};
ghost use Rattle.carried.specs.Corners.{corners as corners_of};
ghost use Rattle.mesh.specs.Refusals.{told};
ghost use Rattle.carry.specs.Asked.{Of, corners_asked, values_asked};
ghost use Rattle.carry.specs.OneLevel.{InEveryRange, SeamsMet};
ghost use Rattle.carry.specs.Rows.{made};

use crate::corners::carry as carry_corners;
use crate::values::carry as carry_values;
use bench::bench::Bench;
use bench::level::Level;
use kinds::corner::CornerKind;
use kinds::row::Rowed;
use kinds::value::ValueKind;
use mesh::fault::Fault;
use tables::lawful::LawfulTables;

// Writes the values of the next level: from the rows of the V that stand, the rows of V + 3F. They stay in every range that held those.
// A refusal writes nothing.
pub fn values<'a, K: ValueKind>(
    bench: &Bench<'a>,
    rows: &[K::Row],
    out: &mut [K::Row],
) -> Result<(), Fault>
    ensures verdict { told result ≡ values_asked K.Rowed.verdict (state bench.now).standing rows.now (length out.old) }
    ensures written { MatchResult result (λ _. Of (state bench.now).standing (λ m. out.new ≡ map K.Rowed.row (values_of K.blended m (made K.Rowed.verdict rows.now)))) (λ _. out.new ≡ out.old) }
    ensures range { OnOk result (InEveryRange K.lies K.Rowed.verdict rows.now out.new) }
{
    let standing = bench.tables(Level::Standing)?;
    carry_values::<K>(LawfulTables { tables: standing }, rows, out)
}

// Writes the corner values of the next level: from the rows of the 4F that stand, the rows of 16F. Sides that agreed still agree.
// A refusal writes nothing.
pub fn corners<'a, C: CornerKind>(
    bench: &Bench<'a>,
    rows: &[C::Row],
    out: &mut [C::Row],
) -> Result<(), Fault>
    ensures verdict { told result ≡ corners_asked C.Rowed.verdict (state bench.now).standing rows.now (length out.old) }
    ensures written { MatchResult result (λ _. Of (state bench.now).standing (λ m. out.new ≡ map C.Rowed.row (corners_of C.middle (made C.Rowed.verdict rows.now)))) (λ _. out.new ≡ out.old) }
    ensures seams { OnOk result (Of (state bench.now).standing (λ m. SeamsMet C.Rowed.verdict m rows.now out.new)) }
{
    let tables = bench.tables(Level::Standing)?;
    carry_corners::<C>(LawfulTables { tables }, rows, out)
}
