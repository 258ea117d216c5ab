// Rows are judged in one pass before the first write, so that every row read later makes its value.
ghost use Rattle.std.specs.Prelude.{◌≡◌, ℕ, ◌^◌, ◌<◌, ◌≤◌, length, IfOk, is_err, position, slice_index_or};
ghost use Rattle.mesh.specs.Refusals.{told, fine};
ghost use Rattle.carry.specs.Rows.{made, refusal, rows_refusal};

use kinds::row::Rowed;
use mesh::fault::Fault;
use tables::lent::MOST_QUADS;

// Rows that all make values.
#[derive(Drop)]
pub(crate) struct Rows<'r, K: Rowed> {
    rows: &'r [K::Row],
    ghost all: { rows_refusal K.verdict rows.now ≡ fine },
}

// How many quads a level has, how many values stand on it, how many are new on the next, and the room for those.
#[derive(Clone, Copy)]
pub(crate) struct Sizes {
    pub(crate) quads: usize,
    pub(crate) standing: usize,
    pub(crate) new: usize,
    pub(crate) room: usize,
}

// The place of the first row that makes no value.
fn first_wrong<K: Rowed>(rows: &[K::Row]) -> Option<usize>
    ensures { result ≡ position (λ r. is_err (K.verdict r)) rows.now }
{
    rows.iter().position(|row| K::make(row).is_err())
}

impl<'r, K: Rowed> Rows<'r, K> {
    // The rows, unless one makes no value: the first such.
    fn judged(rows: &'r [K::Row]) -> Result<Rows<'r, K>, Fault>
        requires { length rows.now ≤ 2 ^ 32 }
        ensures verdict { told result ≡ rows_refusal K.verdict rows.now }
        ensures held { IfOk result (λ it. it.rows.now ≡ rows.now) }
    {
        // by match: a map_or would make the Rows before it is known that every row makes a value, which is their invariant
        match first_wrong::<K>(rows) {
            Some(i) => Err(Fault::NoValue(i as u32)),
            None => Ok(Rows { rows }),
        }
    }

    // The rows, if so many quads can be refined, there are as many rows as values stand and room for as many as are new, and every row makes a value.
    pub(crate) fn accepted(rows: &'r [K::Row], sizes: Sizes) -> Result<Rows<'r, K>, Fault>
        requires { (sizes.quads ≤ 2 ^ 32) × (sizes.standing ≤ 2 ^ 32) }
        ensures verdict { told result ≡ refusal K.verdict sizes.quads sizes.standing sizes.new rows.now sizes.room }
        ensures held { IfOk result (λ it. it.rows.now ≡ rows.now) }
    {
        if 4 * sizes.quads > MOST_QUADS {
            return Err(Fault::LevelTooLarge);
        }
        if rows.len() != sizes.standing || sizes.room != sizes.new {
            return Err(Fault::WrongLength);
        }
        Rows::judged(rows)
    }

    // The value that row i makes.
    pub(crate) fn value(&self, i: usize) -> K
        requires { i < length self.now.rows.now }
        ensures { (d : K) → result ≡ slice_index_or (made K.verdict self.now.rows.now) i d }
    {
        K::make(&self.rows[i]).unwrap()
    }
}
