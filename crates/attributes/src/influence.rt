// Which bones of a rig move a point: a set of up to 64 members, by its bits.
pub mod blend;

use kinds::weight::Weight;

#[derive(Clone, Copy, PartialEq, Eq, Debug)]
pub struct Influence {
    pub bits: u64,
}

// The union of the parts so far, and their weight.
#[derive(Drop)]
pub struct InfluenceMix {
    bits: u64,
    weight: Weight,
}
