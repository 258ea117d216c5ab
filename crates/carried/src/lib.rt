// Values that are carried along refinement: what they are, and what stays true of them, for every kind.
// Each function's contract is a law, proved in proofs/.
#![tactic(auto)]

ghost use Rattle.carried.specs.Laws.{CornersAre, PartsFit, SeamsAlikeByTest, SeamsStillMeet, ValuesAre, ValuesStayInRange};

use kinds::corner::CornerKind;
use kinds::value::ValueKind;

// The parts of a blend name points of the mesh, some are left without those of weight 0, and they weigh what they should.
pub fn parts_fit()
    ensures { PartsFit }
{}

// The values of a refined level: at each slot the blend that belongs there, and no other list has that.
pub fn values_are<K: ValueKind>()
    ensures { ValuesAre K.blended }
{}

// The corner values of a refined level: in each new quad what belongs there, and no other list has that.
pub fn corners_are<C: CornerKind>()
    ensures { CornersAre C.middle }
{}

// Values that are carried along stay in every range that held all the first ones.
pub fn values_stay_in_range<K: ValueKind>()
    ensures { ValuesStayInRange K.lies K.blended }
{}

// The pieces of an edge whose sides agree agree, and so do the edges made inside a quad and their pieces.
pub fn seams_still_meet<C: CornerKind>()
    ensures { SeamsStillMeet C.middle }
{}

// The same by any test of likeness that the middle respects, as one under which 0 and -0 are equal.
pub fn seams_stay_alike<C: CornerKind>()
    ensures { SeamsAlikeByTest C.middle }
{}

// Ranges and seams, for any value kind and any corner kind at once.
pub fn carried_along<K: ValueKind, C: CornerKind>()
    ensures ranges { ValuesStayInRange K.ValueKind.lies K.ValueKind.blended }
    ensures seams { SeamsStillMeet C.CornerKind.middle }
{
    values_stay_in_range::<K>();
    seams_still_meet::<C>();
}
