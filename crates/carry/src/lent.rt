// The calls over lent tables, of which nothing is known: they are judged first.
// The calls on a bench have the same names, and stay beside these: their contracts refuse for other causes, a judge of tables here and a bench without a level there.
ghost use Rattle.std.specs.Prelude.{◌≡◌, map, length, MatchResult};
ghost use Rattle.carried.specs.Blends.{values as values_of};
ghost use Rattle.carried.specs.Corners.{corners as corners_of};
ghost use Rattle.mesh.specs.Refusals.{told};
ghost use Rattle.tables.specs.Lent.{mesh};
ghost use Rattle.carry.specs.Rows.{corners_refusal, made, values_refusal};

use crate::corners::carry as carry_corners;
use crate::values::carry as carry_values;
use kinds::corner::CornerKind;
use kinds::row::Rowed;
use kinds::value::ValueKind;
use mesh::fault::Fault;
use tables::lawful::LawfulTables;
use tables::lent::Tables;

// Writes the corner values of the next level: from the rows of the 4F that stand, the rows of 16F. A refusal writes nothing.
pub fn corners<'a, C: CornerKind>(
    tables: &Tables<'a>,
    rows: &[C::Row],
    out: &mut [C::Row],
) -> Result<(), Fault>
    ensures verdict { told result ≡ corners_refusal C.Rowed.verdict (mesh tables.now) rows.now (length out.old) }
    ensures written { MatchResult result (λ _. out.new ≡ map C.Rowed.row (corners_of C.middle (made C.Rowed.verdict rows.now))) (λ _. out.new ≡ out.old) }
{
    let level = LawfulTables::judged(*tables)?;
    carry_corners::<C>(level, rows, out)
}

// Writes the values of the next level: from the rows of the V that stand, the rows of V + 3F. A refusal writes nothing.
pub fn values<'a, K: ValueKind>(
    tables: &Tables<'a>,
    rows: &[K::Row],
    out: &mut [K::Row],
) -> Result<(), Fault>
    ensures verdict { told result ≡ values_refusal K.Rowed.verdict (mesh tables.now) rows.now (length out.old) }
    ensures written { MatchResult result (λ _. out.new ≡ map K.Rowed.row (values_of K.blended (mesh tables.now) (made K.Rowed.verdict rows.now))) (λ _. out.new ≡ out.old) }
{
    let level = LawfulTables::judged(*tables)?;
    carry_values::<K>(level, rows, out)
}
