// Questions to the levels of a bench, for their counts and their words.
// Whoever lends the tables of a level answers them all, so code above can know a bench by its questions alone.
#![tactic(auto, unfolding(mesh::specs::Causes::mesh_of))]

ghost use Rattle.std.specs.Prelude.{◌*◌};
ghost use Rattle.chain.specs.Calls.{State};
ghost use Rattle.bench.specs.Questions.{Lends};
ghost use Rattle.bench.specs.Model.{state};
ghost use Rattle.questions.specs.Questions.{Tells, CountsAre, CornerIs, EdgeIs, QuadIs, OffEdgeIs, FriendIs, StartIs};

use bench::bench::Bench;
use bench::level::Level;
use mesh::fault::Fault;
use mesh::mark::Mark;
use mesh::number::{Corner, Edge, OffEdge, Point, Quad};
use tables::lent::Tables;

pub trait Questions {
    // the bench whose levels are asked about
    ghost asked: { Self → State };

    // The tables of a level, lent.
    fn lend(&self, level: Level) -> Result<Tables<'_>, Fault>
        ensures { Lends (asked self.now) level result };

    // How many quads and points a level has. The `Counts` of a text would be no plainer: each caller takes the pair apart where it asks.
    fn counts(&self, level: Level) -> Result<(u32, u32), Fault>
        ensures { Tells (asked self.now) level (λ m. 1) 0 CountsAre result }
    {
        let tables = self.lend(level)?;
        Ok((tables.quads() as u32, tables.starts.len() as u32))
    }

    // The point of a corner. `start` is alike in another table, but has a word of its own kind to answer: a helper would be the same three lines and a contract.
    fn corner(&self, level: Level, corner: Corner) -> Result<Point, Fault>
        ensures { Tells (asked self.now) level (λ m. 4 * m.quads) corner.0 (CornerIs corner.0) result }
    {
        let tables = self.lend(level)?;
        let point = tables
            .corners
            .get(corner.0 as usize)
            .ok_or(Fault::NoSuchNumber(corner.0))?;
        Ok(Point(*point))
    }

    // The points where an edge begins and ends. `quad_points` is alike with four: what they share is `get`.
    fn edge(&self, level: Level, edge: Edge) -> Result<(Point, Point), Fault>
        ensures { Tells (asked self.now) level (λ m. 2 * m.quads) edge.0 (EdgeIs edge.0) result }
    {
        let tables = self.lend(level)?;
        let from = 2 * edge.0 as usize;
        let ends = tables
            .corners
            .get(from..from + 2)
            .ok_or(Fault::NoSuchNumber(edge.0))?;
        Ok((Point(ends[0]), Point(ends[1])))
    }

    // The points of a quad, in winding order.
    fn quad_points(&self, level: Level, quad: Quad) -> Result<[Point; 4], Fault>
        ensures { Tells (asked self.now) level (λ m. m.quads) quad.0 (QuadIs quad.0) result }
    {
        let tables = self.lend(level)?;
        let from = 4 * quad.0 as usize;
        let points = tables
            .corners
            .get(from..from + 4)
            .ok_or(Fault::NoSuchNumber(quad.0))?;
        Ok([
            Point(points[0]),
            Point(points[1]),
            Point(points[2]),
            Point(points[3]),
        ])
    }

    // The points where an off-edge begins and ends, and its mark.
    fn off_edge(&self, level: Level, off: OffEdge) -> Result<(Point, Point, Mark), Fault>
        ensures { Tells (asked self.now) level (λ m. 2 * m.quads) off.0 (OffEdgeIs off.0) result }
    {
        let tables = self.lend(level)?;
        let record = tables.edge(off).ok_or(Fault::NoSuchNumber(off.0))?;
        Ok((record.begin, record.end, record.mark))
    }

    // The edge that runs the other way along an off-edge.
    fn friend(&self, level: Level, off: OffEdge) -> Result<Edge, Fault>
        ensures { Tells (asked self.now) level (λ m. 2 * m.quads) off.0 (FriendIs off.0) result }
    {
        let tables = self.lend(level)?;
        let record = tables.edge(off).ok_or(Fault::NoSuchNumber(off.0))?;
        Ok(record.friend)
    }

    // The corner where the walk of a point starts.
    fn start(&self, level: Level, point: Point) -> Result<Corner, Fault>
        ensures { Tells (asked self.now) level (λ m. m.points) point.0 (StartIs point.0) result }
    {
        let tables = self.lend(level)?;
        let start = tables
            .starts
            .get(point.0 as usize)
            .ok_or(Fault::NoSuchNumber(point.0))?;
        Ok(Corner(*start))
    }
}

impl<'a> Questions for Bench<'a> {
    ghost asked = { state };

    fn lend(&self, level: Level) -> Result<Tables<'_>, Fault> {
        self.tables(level)
    }
}
