// Influences as a value kind.
ghost use Rattle.std.specs.Prelude.{ℕ};
ghost use Rattle.attributes.specs.Influences.{Subset, UnionOf, row_of, union, verdict_of};
ghost use Rattle.std.proofs.Common.{rules};
ghost use Rattle.attributes.specs.Unions.{union_inside};

use super::{Influence, InfluenceMix};
use kinds::row::Rowed;
use kinds::value::ValueKind;
use kinds::weight::Weight;

impl Rowed for Influence {
    type Row = u64;

    ghost verdict = { verdict_of };

    ghost row = { row_of };

    ghost again = { Prim.search rules };

    fn make(from: &u64) -> Result<Influence, u32> {
        Ok(Influence { bits: *from })
    }

    fn to_row(&self) -> u64 {
        self.bits
    }
}

impl ValueKind for Influence {
    type Mix = InfluenceMix;

    ghost Range = { ℕ };

    ghost lies = { Subset };

    ghost blended = { union };

    ghost holds = { UnionOf };

    ghost weighed = { λ m. m.weight.taken };

    ghost keeps = { λ s ps some few each. union_inside s ps each };

    ghost weighs = { λ m ps s. s.weight_is };

    // `start` and `add` are alike for coordinates: one trait's methods, each over the fields of its own mix.
    fn start() -> InfluenceMix {
        InfluenceMix {
            bits: 0,
            weight: Weight { taken: 0 },
        }
    }

    fn add(mix: &mut InfluenceMix, value: &Influence, weight: u32) {
        if let Some(taken) = mix.weight.checked_add(weight) {
            mix.bits |= value.bits;
            mix.weight = taken;
        }
    }

    fn finish(mix: InfluenceMix) -> Influence {
        Influence { bits: mix.bits }
    }
}
