ghost use Rattle.std.specs.Prelude.{◌≡◌, ℕ, ◌+◌, ◌*◌, ◌^◌, ◌<◌, ◌≤◌, length, replicate, count_by, nat_eq, position, slice_set};
ghost use Rattle.mesh.specs.Mesh.{friend as friend_of};
ghost use Rattle.refinement.specs.Tasks.{put, new_corners, fallen, quad_task, point_task};
ghost use Rattle.tables.specs.Lent.{mesh};
ghost use Rattle.layout.specs.Laws.{four_laid};
ghost use Rattle.layout.specs.Layout.{block, level_at, laid, shifted, standing_in, after_task, InRange};
ghost use Rattle.bench.specs.State.{Lengths, Ready, RoomAbove};
ghost use Rattle.bench.specs.Writes.{friends_by, marks_by, starts_by};

use crate::stage::Size;
use mesh::mark::INFINITE;
use mesh::number::{Edge, Point, Quad};
use tables::lent::Tables;
use tables::slot::{edge_slot, face_slot, old_slot};

// By how much a semi-sharp mark falls.
const FALL: u32 = 256;

// The mark of the halves of an edge.
fn fallen_mark(word: u32) -> u32
    ensures { result ≡ fallen word }
{
    if word == INFINITE {
        word
    } else {
        word.saturating_sub(FALL)
    }
}

// The task of a quad: the quad, and the friends of its two off-edges.
// What writes takes the words and a place, and no writer: a task writes to places all over, not one after the other.
#[derive(Clone, Copy)]
struct QuadTask {
    size: Size,
    q: usize,
    g0: usize,
    g1: usize,
    ghost q_there: { q < size.quads },
    ghost g0_there: { g0 < 2 * size.quads },
    ghost g1_there: { g1 < 2 * size.quads },
}

impl QuadTask {
    // The corners of its four new quads.
    fn row(self, standing: &Tables<'_>) -> [u32; 16]
        requires lengths { Lengths standing.now self.size }
        requires range { InRange (mesh standing.now) }
        ensures { self.g0 ≡ friend_of (mesh standing.now) (2 * self.q) → self.g1 ≡ friend_of (mesh standing.now) (2 * self.q + 1) → result ≡ new_corners (mesh standing.now) self.q }
    {
        let q = self.q;
        let quads = self.size.quads;
        let w0 = old_slot(quads, Point(standing.corners[4 * q])) as u32;
        let w1 = old_slot(quads, Point(standing.corners[4 * q + 1])) as u32;
        let w2 = old_slot(quads, Point(standing.corners[4 * q + 2])) as u32;
        let w3 = old_slot(quads, Point(standing.corners[4 * q + 3])) as u32;
        let e0 = edge_slot(Edge(self.g0 as u32)) as u32;
        let e1 = edge_slot(Edge(self.g1 as u32)) as u32;
        let face = (4 * q + 1) as u32;
        let d0 = (4 * q + 2) as u32;
        let d1 = (4 * q + 3) as u32;
        [
            w0, d0, face, e1, w1, e0, face, d0, w2, d1, face, e0, w3, e1, face, d1,
        ]
    }

    // What it writes to the friends that begin at word `at`. `put_marks` writes other words to the same places, four of them of its
    // own kind: a table of places and words would be made for this one use.
    fn put_friends(self, cells: &mut [u32], at: usize)
        requires { at + 8 * self.size.quads ≤ length cells.old }
        ensures { cells.new ≡ put (shifted at (friends_by self.q self.g0 self.g1)) cells.old }
    {
        let q = self.q;
        cells[at + 8 * q] = (8 * q + 3) as u32;
        cells[at + (8 * q + 2)] = (8 * q + 5) as u32;
        cells[at + (8 * q + 4)] = (8 * q + 7) as u32;
        cells[at + (8 * q + 6)] = (8 * q + 1) as u32;
        cells[at + (8 * q + 1)] = (4 * self.g1) as u32;
        cells[at + (8 * q + 5)] = (4 * self.g0) as u32;
        cells[at + (4 * self.g0 + 3)] = (8 * q + 2) as u32;
        cells[at + (4 * self.g1 + 3)] = (8 * q + 6) as u32;
    }

    // What it writes to the marks.
    fn put_marks(self, cells: &mut [u32], at: usize, m0: u32, m1: u32)
        requires { at + 8 * self.size.quads ≤ length cells.old }
        ensures { cells.new ≡ put (shifted at (marks_by self.q self.g0 self.g1 m0 m1)) cells.old }
    {
        let q = self.q;
        cells[at + 8 * q] = 0;
        cells[at + (8 * q + 2)] = 0;
        cells[at + (8 * q + 4)] = 0;
        cells[at + (8 * q + 6)] = 0;
        cells[at + (8 * q + 1)] = m1;
        cells[at + (8 * q + 5)] = m0;
        cells[at + (4 * self.g0 + 3)] = m0;
        cells[at + (4 * self.g1 + 3)] = m1;
    }

    // What it writes to the starts.
    #[tactic(auto, using(crate::proofs::Tasks::face_slot_is, crate::proofs::Tasks::edge_slot_is))]
    fn put_starts(self, cells: &mut [u32], at: usize)
        requires { at + 4 * self.size.quads ≤ length cells.old }
        ensures { cells.new ≡ put (shifted at (starts_by self.q self.g0 self.g1)) cells.old }
    {
        let face = face_slot(Quad(self.q as u32));
        let e0 = edge_slot(Edge(self.g0 as u32));
        let e1 = edge_slot(Edge(self.g1 as u32));
        cells[at + face] = (16 * self.q + 2) as u32;
        cells[at + e0] = (8 * self.g0 + 1) as u32;
        cells[at + e1] = (8 * self.g1 + 1) as u32;
    }
}

// Writes xs over the words from `at` on. The same line as `lay` in `lines`; why, stands there.
fn copy_in(cells: &mut [u32], at: usize, xs: &[u32])
    requires { at + length xs.now ≤ length cells.old }
    ensures { cells.new ≡ laid cells.old at xs.now }
{
    cells[at..at + xs.len()].copy_from_slice(xs);
}

// The lent words, in a struct of their own: while they are written, what a bench keeps of them does not hold.
// Its regions lie in one lent slice, found by arithmetic: the library has no heap, and its maker lends the words.
// The size goes with them as a parameter. A struct that holds both was tried: of the words behind it `Bench::quad` knew only the length
// at the end, so its goal `invariant_of-self` did not close.
#[derive(Drop)]
pub struct Words<'a> {
    pub cells: &'a mut [u32],
}

impl<'a> Words<'a> {
    // The tables of a level of this size that begins at `base`, lent.
    pub(crate) fn tables(&self, base: usize, size: Size) -> Tables<'_>
        requires { base + (8 * size.quads + size.points) ≤ length self.now.cells.now }
        ensures is { mesh result ≡ level_at self.now.cells.now base size.quads size.points }
        ensures lengths { Lengths result size }
    {
        let quads = size.quads as usize;
        let friends = base + 4 * quads;
        let marks = base + 6 * quads;
        let starts = base + 8 * quads;
        Tables {
            corners: &self.cells[base..friends],
            friends: &self.cells[friends..marks],
            marks: &self.cells[marks..starts],
            starts: &self.cells[starts..starts + size.points as usize],
        }
    }

    // The task of a quad of a standing level: the words of four new quads, and that it has run.
    pub(crate) fn run_quad(&mut self, size: Size, quad: Quad)
        requires ready { Ready size self.old.cells.now }
        requires there { quad.0 < size.quads }
        ensures { self.new.cells.now ≡ after_task (standing_in self.old.cells.now size.quads size.points) (quad_task quad.0) self.old.cells.now }
    {
        let q = quad.0 as usize;
        let standing = self.tables(0, size);
        let task = QuadTask {
            size,
            q,
            g0: standing.friends[2 * q] as usize,
            g1: standing.friends[2 * q + 1] as usize,
        };
        let m0 = fallen_mark(standing.marks[2 * q]);
        let m1 = fallen_mark(standing.marks[2 * q + 1]);
        let row = task.row(&standing);
        let at = size.words();
        let made = 4 * size.quads as usize;
        copy_in(self.cells, at + 16 * q, &row);
        task.put_friends(self.cells, at + 4 * made);
        task.put_marks(self.cells, at + 6 * made, m0, m1);
        task.put_starts(self.cells, at + 8 * made);
        self.cells[size.ran_from() + q] = 1;
    }

    // The task of a point: its new start, and that it has run.
    pub(crate) fn run_point(&mut self, size: Size, point: Point)
        requires ready { Ready size self.old.cells.now }
        requires there { point.0 < size.points }
        ensures { self.new.cells.now ≡ after_task (standing_in self.old.cells.now size.quads size.points) (point_task point.0) self.old.cells.now }
    {
        let v = point.0 as usize;
        let quads = size.quads as usize;
        let start = self.tables(0, size).starts[v];
        let slot = old_slot(size.quads, point);
        let at = size.words() + 8 * (4 * quads);
        self.cells[at + slot] = 4 * start;
        self.cells[size.ran_from() + (quads + v)] = 1;
    }

    // The words that say which tasks of the level in work have run.
    fn ran(&self, size: Size) -> &[u32]
        requires { RoomAbove size self.now.cells.now }
        ensures { result.now ≡ block self.now.cells.now (43 * size.quads + 2 * size.points) (size.quads + size.points) }
    {
        &self.cells[size.ran_from()..size.words_to_begin()]
    }

    // How many tasks are left once this one has run.
    pub(crate) fn left_after(&self, size: Size, task: usize, left: u32) -> u32
        requires points_in_bounds { RoomAbove size self.now.cells.now × (task < size.quads + size.points) }
        requires left_value { left ≡ count_by (λ w. nat_eq w 0) (block self.now.cells.now (43 * size.quads + 2 * size.points) (size.quads + size.points)) }
        ensures { result ≡ count_by (λ w. nat_eq w 0) (slice_set (block self.now.cells.now (43 * size.quads + 2 * size.points) (size.quads + size.points)) task 1) }
    {
        if self.ran(size)[task] == 0 {
            left - 1
        } else {
            left
        }
    }

    // The lowest task that has yet to run.
    pub(crate) fn lowest(&self, size: Size) -> Option<usize>
        requires { RoomAbove size self.now.cells.now }
        ensures { result ≡ position (λ w. nat_eq w 0) (block self.now.cells.now (43 * size.quads + 2 * size.points) (size.quads + size.points)) }
    {
        self.ran(size).iter().position(|w| *w == 0)
    }

    // Writes four tables over the front.
    pub(crate) fn lay_tables(&mut self, tables: &Tables<'_>, size: Size)
        requires lengths { Lengths tables.now size }
        requires room { 8 * size.quads + size.points ≤ length self.old.cells.now }
        ensures { self.new.cells.now ≡ four_laid self.old.cells.now size.quads tables.now.corners.now tables.now.friends.now tables.now.marks.now tables.now.starts.now }
    {
        let quads = size.quads as usize;
        copy_in(self.cells, 0, tables.corners);
        copy_in(self.cells, 4 * quads, tables.friends);
        copy_in(self.cells, 6 * quads, tables.marks);
        copy_in(self.cells, 8 * quads, tables.starts);
    }

    // Writes 0 into all words of a level in work above one of this size.
    pub(crate) fn blank(&mut self, size: Size)
        requires { RoomAbove size self.old.cells.now }
        ensures { self.new.cells.now ≡ laid self.old.cells.now (8 * size.quads + size.points) (replicate (36 * size.quads + 2 * size.points) 0) }
    {
        self.cells[size.words()..size.words_to_begin()].fill(0);
    }

    // Moves the tables of the level in work above one of this size to the front.
    pub(crate) fn bring_down(&mut self, size: Size)
        requires { RoomAbove size self.old.cells.now }
        ensures { self.new.cells.now ≡ laid self.old.cells.now 0 (block self.old.cells.now (8 * size.quads + size.points) (35 * size.quads + size.points)) }
    {
        self.cells.copy_within(size.words()..size.ran_from(), 0);
    }
}
