// Values lie in slices of plain rows, which anyone may fill.
ghost use Rattle.std.specs.Prelude.{◌≡◌, ℕ, Ok, Result};
ghost use Rattle.kinds.specs.Rows.{with_fault};

use mesh::fault::Fault;

// A row is plain data from which a value is made.
pub trait Rowed: Copy {
    type Row: Copy;

    // The value that a row makes, or the number of the component at fault.
    ghost verdict: { Self.Row → Result Self ℕ };

    ghost row: { Self → Self.Row };

    // Not TryFrom and From: the law below speaks of both.
    fn make(from: &Self::Row) -> Result<Self, u32>
        ensures { result ≡ verdict from.now };

    fn to_row(&self) -> Self::Row
        ensures { result ≡ row self.now };

    // A value's row makes it again.
    ghost again: { (v : Self) → verdict (row v) ≡ Ok v };
}

// The value that a row makes; a refusal names the component at fault.
pub fn make_value<K: Rowed>(from: &K::Row) -> Result<K, Fault>
    ensures { result ≡ with_fault (K.verdict from.now) }
{
    K::make(from).map_err(Fault::NoValue)
}
