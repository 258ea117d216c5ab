// Coordinates as a value kind.
ghost use Rattle.std.specs.Prelude.{◌≡◌, ◌+◌, ◌*◌, ◌^◌, ◌≤◌, [], ◌∷◌, pos, ◌+ℤ◌, ◌*ℤ◌, nat_le, unsigned_abs};
ghost use Rattle.kinds.specs.Parts.{most_weight};
ghost use Rattle.kinds.specs.Rows.{with_fault};
ghost use Rattle.attributes.specs.Coordinates.{Cuboid, SumOf, blend_of, checked, inside, row_of, verdict_of};
ghost use Rattle.attributes.specs.Limit.{Limited, farthest};
ghost use Rattle.attributes.specs.Limits.{checked_ok, mean_between};
ghost use Rattle.kinds.proofs.Parts.{each_weaker};

use super::{Coordinates, CoordinatesMix};
use crate::rounding::rounded;
use kinds::row::{Rowed, make_value};
use kinds::value::ValueKind;
use kinds::weight::Weight;
use mesh::fault::Fault;

const LIMIT: i32 = 16_777_216;

// The sum of one coordinate with one part more.
fn more(sum: i64, at: i32, times: u32) -> i64
    requires few { times ≤ most_weight }
    requires small { unsigned_abs sum ≤ 2 ^ 52 }
    requires limited { Limited at }
    ensures is { result ≡ sum +ℤ pos times *ℤ at }
    ensures grows { unsigned_abs result ≤ unsigned_abs sum + farthest * times }
{
    sum + i64::from(times) * i64::from(at)
}

// Whether a coordinate is not past the limit.
fn is_limited(at: i32) -> bool
    ensures { result ≡ nat_le (unsigned_abs at) farthest }
{
    (-LIMIT..=LIMIT).contains(&at)
}

impl Coordinates {
    // Refuses the first component that is past the limit.
    pub fn new(x: i32, y: i32, z: i32) -> Result<Coordinates, Fault>
        ensures { result ≡ with_fault (checked x y z) }
    {
        make_value::<Coordinates>(&[x, y, z])
    }
}

impl Rowed for Coordinates {
    type Row = [i32; 3];

    ghost verdict = { verdict_of };

    ghost row = { row_of };

    ghost again = { λ v. checked_ok v.x v.y v.z v.xok v.yok v.zok };

    fn make(from: &[i32; 3]) -> Result<Coordinates, u32> {
        let [x, y, z] = *from;
        // A match: under map_or_else the closure that makes the value does not know that its numbers passed, and its proof did not close.
        match from.iter().position(|at| !is_limited(*at)) {
            None => Ok(Coordinates { x, y, z }),
            Some(i) => Err(i as u32),
        }
    }

    fn to_row(&self) -> [i32; 3] {
        [self.x, self.y, self.z]
    }
}

impl ValueKind for Coordinates {
    type Mix = CoordinatesMix;

    ghost Range = { Cuboid };

    ghost lies = { inside };

    ghost blended = { blend_of };

    ghost holds = { SumOf };

    ghost weighed = { λ m. m.weight.taken };

    ghost keeps = { λ b ps some few each. (
      mean_between (λ p. p.x) b.along_x ps some (each_weaker _ _ (λ v h. h.0) ps each),
      mean_between (λ p. p.y) b.along_y ps some (each_weaker _ _ (λ v h. h.1) ps each),
      mean_between (λ p. p.z) b.along_z ps some (each_weaker _ _ (λ v h. h.2) ps each),
    ) };

    ghost weighs = { λ m ps s. s.weight_is };

    // Field by field: Default cannot be derived over a ghost field, and an impl by hand is these lines and one contract more.
    fn start() -> CoordinatesMix {
        CoordinatesMix {
            x: 0,
            y: 0,
            z: 0,
            weight: Weight { taken: 0 },
        }
    }

    fn add(mix: &mut CoordinatesMix, value: &Coordinates, weight: u32) {
        if let Some(taken) = mix.weight.checked_add(weight) {
            mix.x = more(mix.x, value.x, weight);
            mix.y = more(mix.y, value.y, weight);
            mix.z = more(mix.z, value.z, weight);
            mix.weight = taken;
        }
    }

    fn finish(mix: CoordinatesMix) -> Coordinates {
        Coordinates {
            x: rounded(mix.x, mix.weight.taken),
            y: rounded(mix.y, mix.weight.taken),
            z: rounded(mix.z, mix.weight.taken),
        }
    }
}
