// Texture pairs as a corner kind.
ghost use Rattle.std.specs.Prelude.{◌≡◌};
ghost use Rattle.kinds.specs.Rows.{with_fault};
ghost use Rattle.attributes.specs.Equal.{EqualIsALikeness};
ghost use Rattle.attributes.specs.Halfway.{halfway_of, lawful};
ghost use Rattle.attributes.specs.Textures.{checked, middle_of, row_of, verdict_of};
ghost use Rattle.attributes.specs.Pairs.{checked_ok, same_pair};
ghost use Rattle.attributes.specs.Rounding.{halfway_even};

use super::Texture;
use kinds::corner::CornerKind;
use kinds::row::{Rowed, make_value};
use mesh::fault::Fault;

// Whether x is a texture number. The comparison fails at a NaN and at an infinity.
fn is_lawful(x: f32) -> bool
    ensures { result ≡ lawful x }
{
    x.abs() <= 65536.0
}

// The sum, rounded once, times 0.5, rounded once.
fn halfway(x: f32, y: f32) -> f32
    ensures { result ≡ halfway_of x y }
{
    (x + y) * 0.5
}

impl Texture {
    // Refuses the first component that is past the limit or not finite.
    pub fn new(u: f32, v: f32) -> Result<Texture, Fault>
        ensures { result ≡ with_fault (checked u v) }
    {
        make_value::<Texture>(&[u, v])
    }
}

impl Rowed for Texture {
    type Row = [f32; 2];

    ghost verdict = { verdict_of };

    ghost row = { row_of };

    ghost again = { λ t. checked_ok t.u t.v t.uok t.vok };

    fn make(from: &[f32; 2]) -> Result<Texture, u32> {
        let [u, v] = *from;
        // Alike for coordinates: one trait's method over other numbers, each with a test of its own.
        match from.iter().position(|at| !is_lawful(*at)) {
            None => Ok(Texture { u, v }),
            Some(i) => Err(i as u32),
        }
    }

    fn to_row(&self) -> [f32; 2] {
        [self.u, self.v]
    }
}

impl CornerKind for Texture {
    ghost middle = { middle_of };

    ghost even = { λ x y. same_pair _ _ (halfway_even x.u y.u) (halfway_even x.v y.v) };

    fn midway(&self, other: &Texture) -> Texture {
        Texture {
            u: halfway(self.u, other.u),
            v: halfway(self.v, other.v),
        }
    }
}

// Where `==` finds pairs equal, 0 and -0 too, it finds their middles equal.
pub fn equal_is_a_likeness()
    ensures { EqualIsALikeness }
{}
