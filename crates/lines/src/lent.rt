// The four tables that a text is read into, lent by whoever holds them.
ghost use Rattle.std.specs.Prelude.{◌≡◌, ℕ, ◌+◌, ◌*◌, ◌≤◌, List, ◌++◌, length, take, drop, IsSome, MatchOption};
ghost use Rattle.std.specs.List.{flat_map};
ghost use Rattle.mesh.specs.Mesh.{Mesh};
ghost use Rattle.lines.specs.Laws.{HasRoom};
ghost use Rattle.lines.specs.Lent.{Same, lent_room, HoldsIn};
ghost use Rattle.lines.specs.Reading.{lines, good, accepted, body_read, roomy, laid};

use crate::frame::read_line;
use crate::kind::Kind;
use crate::reader::Counts;
use std::slice;

#[derive(Drop)]
pub struct TablesMut<'a> {
    pub corners: &'a mut [u32],
    pub friends: &'a mut [u32],
    pub marks: &'a mut [u32],
    pub starts: &'a mut [u32],
}

// Writes words over a part of a table. `bench` has the same line: a public function for both would have to ask for room.
fn lay(table: &mut [u32], at: usize, words: &[u32])
    requires { at + length words.now ≤ length table.old }
    ensures { table.new ≡ take at table.old ++ (words.now ++ drop (at + length words.now) table.old) }
{
    table[at..at + words.len()].copy_from_slice(words);
}

impl TablesMut<'_> {
    // Whether they have room for so many quads and points.
    pub(crate) fn has_room(&self, counts: Counts) -> bool
        ensures { result ≡ roomy counts.quads counts.points (lent_room self.now) }
    {
        let quads = counts.quads as usize;
        4 * quads <= self.corners.len()
            && 2 * quads <= self.friends.len()
            && 2 * quads <= self.marks.len()
            && counts.points as usize <= self.starts.len()
    }

    // Fills the three tables of quads from their lines; the bytes after these. The body is what is left to read, and the counts are what line 0 said: no method of a pair of them would be shorter.
    fn fill_quads<'t>(&mut self, body: &'t [u8], counts: Counts) -> Option<&'t [u8]>
        requires { HasRoom counts.quads counts.points (lent_room self.old) }
        ensures same { Same self.old self.new }
        ensures starts_kept { self.new.starts.now ≡ self.old.starts.now }
        ensures filled { (rows : List (List ℕ)) (t : List ℕ) → lines 48 49 8 counts.quads body.now ≡ good rows t → MatchOption result ⊥ (λ rest. (rest.now ≡ t) × (self.new.corners.now ≡ laid (flat_map (λ ns. take 4 ns) rows) self.old.corners.now) × (self.new.friends.now ≡ laid (flat_map (λ ns. take 2 (drop 4 ns)) rows) self.old.friends.now) × (self.new.marks.now ≡ laid (flat_map (λ ns. take 2 (drop 6 ns)) rows) self.old.marks.now)) }
    {
        // by index: after a loop over mutable chunks a proof knows nothing of what they hold
        let mut row = [0u32; 8];
        let mut rest = body;
        for q in 0..counts.quads as usize {
            rest = read_line(rest, Kind::Quad, &mut row)?;
            lay(self.corners, 4 * q, &row[0..4]);
            lay(self.friends, 2 * q, &row[4..6]);
            lay(self.marks, 2 * q, &row[6..8]);
        }
        Some(rest)
    }

    // Fills the tables; Some where the lines are those of a mesh.
    pub(crate) fn fill(&mut self, body: &[u8], counts: Counts) -> Option<()>
        requires { HasRoom counts.quads counts.points (lent_room self.old) }
        ensures same { Same self.old self.new }
        ensures filled { (m : Mesh) → body_read counts.quads counts.points body.now ≡ accepted m → IsSome result × HoldsIn (accepted m) self.old self.new }
    {
        let points = self.fill_quads(body, counts)?;
        fill_starts(points, counts.points, self.starts)
    }
}

// Fills the front of the starts from the lines of the points.
fn fill_starts(text: &[u8], count: u32, starts: &mut [u32]) -> Option<()>
    requires { count ≤ length starts.old }
    ensures { (rows : List (List ℕ)) (t : List ℕ) → lines 48 50 1 count text.now ≡ good rows t → IsSome result × (starts.new ≡ laid (flat_map (λ ns. ns) rows) starts.old) }
{
    let mut rest = text;
    for start in starts[..count as usize].iter_mut() {
        rest = read_line(rest, Kind::Start, slice::from_mut(start))?;
    }
    Some(())
}
