// All that the tables say of an off-edge, in one record, and a step by it.
ghost use Rattle.std.specs.Prelude.{◌≡◌};
ghost use Rattle.mesh.specs.Marks.{word_of};
ghost use Rattle.mesh.specs.Mesh.{mark as mark_word};
ghost use Rattle.tables.specs.Edges.{Reads, RecordOf, EdgeAnswer, StepAnswer};
ghost use Rattle.tables.specs.Lent.{mesh};

use crate::corner::off_edge;
use crate::lent::{MOST_QUADS, Tables};
use mesh::mark::Mark;
use mesh::number::{Corner, Edge, OffEdge, Point};
use std::fmt;

// Where an off-edge begins and ends, the edge that runs the other way, and its mark.
#[derive(Clone, Copy, PartialEq, Eq, Debug)]
pub struct EdgeRecord {
    pub begin: Point,
    pub end: Point,
    pub friend: Edge,
    pub mark: Mark,
}

impl<'a> Tables<'a> {
    // How many whole quads the corner table has.
    pub fn quads(&self) -> usize
        ensures { result ≡ (mesh self.now).quads }
    {
        self.corners.len() / 4
    }

    // The record of an off-edge that has this mark.
    #[tactic(auto, unfolding(mesh::specs::Causes::mesh_of, mesh::specs::Mesh::begins, mesh::specs::Mesh::ends))]
    fn record_with(&self, off: OffEdge, mark: Mark) -> EdgeRecord
        requires { (Reads (mesh self.now) off.0) × (word_of mark ≡ mark_word (mesh self.now) off.0) }
        ensures { RecordOf (mesh self.now) off.0 result }
    {
        let o = off.0 as usize;
        EdgeRecord {
            begin: Point(self.corners[2 * o + 1]),
            end: Point(self.corners[4 * (o / 2) + (2 * o + 2) % 4]),
            friend: Edge(self.friends[o]),
            mark,
        }
    }

    // The record of an off-edge that can be read.
    pub(crate) fn record(&self, off: OffEdge) -> EdgeRecord
        requires { Reads (mesh self.now) off.0 }
        ensures { RecordOf (mesh self.now) off.0 result }
    {
        let mark = Mark::try_from(self.marks[off.0 as usize]).unwrap();
        self.record_with(off, mark)
    }

    // The record of an off-edge; None where a table has no word for it, or its mark word stands for no mark.
    pub fn edge(&self, off: OffEdge) -> Option<EdgeRecord>
        ensures { EdgeAnswer (mesh self.now) off.0 result }
    {
        let o = off.0 as usize;
        if o / 2 >= self.quads() || o >= self.friends.len() {
            return None;
        }
        let mark = Mark::try_from(*self.marks.get(o)?).ok()?;
        Some(self.record_with(off, mark))
    }

    // The corner a step on, along the off-edge at this one to its friend; None where that is no corner of a mesh.
    #[tactic(auto, using(crate::proofs::Reading::step_by))]
    pub fn step(&self, corner: Corner) -> Option<Corner>
        ensures { StepAnswer (mesh self.now) corner.0 result }
    {
        let record = self.edge(off_edge(corner))?;
        let quads = self.quads();
        if quads > MOST_QUADS || record.friend.0 as usize >= 2 * quads {
            return None;
        }
        // A public method of the record would have to ask that the friend is an edge, so that the number fits.
        Some(Corner(2 * record.friend.0 + corner.0 % 2))
    }
}
