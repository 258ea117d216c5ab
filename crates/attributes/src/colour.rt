// A colour as a corner kind.
ghost use Rattle.std.specs.Prelude.{◌≡◌, ◌+◌, ◌/◌};
ghost use Rattle.attributes.specs.Colours.{middle_of, row_of, verdict_of};
ghost use Rattle.std.proofs.Common.{rules};

use kinds::corner::CornerKind;
use kinds::row::Rowed;

#[derive(Clone, Copy, PartialEq, Eq, Debug)]
pub struct Colour {
    pub red: u8,
    pub green: u8,
    pub blue: u8,
}

fn half(a: u8, b: u8) -> u8
    ensures { result ≡ (a + b) / 2 }
{
    ((u16::from(a) + u16::from(b)) / 2) as u8
}

impl Rowed for Colour {
    type Row = [u8; 3];

    ghost verdict = { verdict_of };

    ghost row = { row_of };

    ghost again = { Prim.search rules };

    fn make(from: &[u8; 3]) -> Result<Colour, u32> {
        let [red, green, blue] = *from;
        Ok(Colour { red, green, blue })
    }

    fn to_row(&self) -> [u8; 3] {
        [self.red, self.green, self.blue]
    }
}

impl CornerKind for Colour {
    ghost middle = { middle_of };

    ghost even = { Prim.search rules };

    fn midway(&self, other: &Colour) -> Colour {
        Colour {
            red: half(self.red, other.red),
            green: half(self.green, other.green),
            blue: half(self.blue, other.blue),
        }
    }
}
