// Reads of a lawful mesh at numbers below its counts: none needs a test. A public function asks nothing, so these are the crate's own.
// Most corners are made where they are read: a type of corners below the count would want the proof of the same bound there, and would have to name its level.
// So for points and off-edges.
ghost use Rattle.std.specs.Prelude.{◌≡◌, ◌*◌, ◌<◌};
ghost use Rattle.mesh.specs.Marks.{word_of};
ghost use Rattle.mesh.specs.Mesh.{mark as mark_word, off_edge, point as point_of, step as step_from};
ghost use Rattle.tables.specs.Edges.{RecordOf};
ghost use Rattle.tables.specs.Lent.{mesh};

use mesh::mark::Mark;
use mesh::number::{Corner, OffEdge, Point};
use tables::corner::off_edge;
use tables::edge::EdgeRecord;
use tables::lawful::LawfulTables;

// The record of an off-edge.
pub(crate) fn edge<'a>(level: &LawfulTables<'a>, off: OffEdge) -> EdgeRecord
    requires { off.0 < 2 * (mesh level.now.tables).quads }
    ensures { RecordOf (mesh level.now.tables) off.0 result }
{
    level.tables.edge(off).unwrap()
}

// The point of a corner.
pub(crate) fn point<'a>(level: &LawfulTables<'a>, corner: Corner) -> Point
    requires { corner.0 < 4 * (mesh level.now.tables).quads }
    ensures is { result.0 ≡ point_of (mesh level.now.tables) corner.0 }
    ensures below { result.0 < (mesh level.now.tables).points }
{
    Point(level.tables.corners[corner.0 as usize])
}

// The corner a step on from a corner. No mark word is read.
pub(crate) fn step<'a>(level: &LawfulTables<'a>, corner: Corner) -> Corner
    requires { corner.0 < 4 * (mesh level.now.tables).quads }
    ensures is { result.0 ≡ step_from (mesh level.now.tables) corner.0 }
    ensures below { result.0 < 4 * (mesh level.now.tables).quads }
{
    let off = off_edge(corner).0 as usize;
    Corner(2 * level.tables.friends[off] + corner.0 % 2)
}

// The mark of the off-edge at a corner, and the corner a step on.
pub(crate) fn marked_step<'a>(level: &LawfulTables<'a>, corner: Corner) -> (Mark, Corner)
    requires { corner.0 < 4 * (mesh level.now.tables).quads }
    ensures marks { word_of result.0 ≡ mark_word (mesh level.now.tables) (off_edge corner.0) }
    ensures is { result.1.0 ≡ step_from (mesh level.now.tables) corner.0 }
    ensures below { result.1.0 < 4 * (mesh level.now.tables).quads }
{
    let record = edge(level, off_edge(corner));
    (record.mark, Corner(2 * record.friend.0 + corner.0 % 2))
}
