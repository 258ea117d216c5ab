// Whether tables are a lawful mesh: ten causes to decline them, each tried at every place before the next.
// The contract of each pass is the verdict of its own test, before any other.
ghost use Rattle.std.proofs.Props.{props};
ghost use Rattle.std.specs.Prelude.{◌≡◌, ℕ, ◌*◌, ◌<◌, ◌≤◌, IfOk, MatchOption};
ghost use Rattle.mesh.specs.Causes.{once, each, shape_ok, quads_ok, points_ok, corner_ok, friend_ok, mark_ok, back_ok, start_ok, walk_ok, all_met, judge};
ghost use Rattle.mesh.specs.Count.{total};
ghost use Rattle.mesh.specs.Mesh.{longest, start, step, valence};
ghost use Rattle.mesh.specs.Refusals.{Verdict, fine, told};
ghost use Rattle.refinement.proofs.OneProof.{mark_once};
ghost use Rattle.tables.specs.Lent.{mesh};
ghost use Rattle.tables.specs.Passed.{Sized, Worded, Started, told_or};

use crate::corner::off_edge;
use crate::lent::{FEWEST_QUADS, MOST_QUADS, Tables};
use mesh::fault::Fault;
use mesh::mark::Mark;
use mesh::number::{Corner, OffEdge, Point};

// A walk has at least and at most so many steps.
const SHORTEST: u32 = 2;

const LONGEST: u32 = 64;

// Tables that passed 1 to 3: they have the lengths of a mesh.
#[derive(Clone, Copy)]
struct SizedTables<'a> {
    tables: Tables<'a>,
    ghost sized: { Sized (mesh tables) },
}

// Tables that passed 4 to 6 too: their words are points, edges and marks.
#[derive(Clone, Copy)]
struct WordedTables<'a> {
    tables: Tables<'a>,
    ghost worded: { Worded (mesh tables) } by { Prim.hlevel (props, mark_once) },
}

impl<'a> Tables<'a> {
    // 1 to 3: the tables have the lengths that go together, and there are so many quads and points.
    fn sized(&self) -> Result<SizedTables<'a>, Fault>
        ensures verdict { (rest : Verdict) → told_or result rest ≡ once 1 (shape_ok (mesh self.now)) (once 2 (quads_ok (mesh self.now)) (once 3 (points_ok (mesh self.now)) rest)) }
        ensures held { IfOk result (λ it. it.tables ≡ self.now) }
    {
        let quads = self.quads();
        if self.corners.len() != 4 * quads
            || self.friends.len() != 2 * quads
            || self.marks.len() != 2 * quads
        {
            return Err(Fault::Shape);
        }
        if !(FEWEST_QUADS..=MOST_QUADS).contains(&quads) {
            return Err(Fault::QuadCount);
        }
        if !(quads..=2 * quads).contains(&self.starts.len()) {
            return Err(Fault::PointCount);
        }
        Ok(SizedTables { tables: *self })
    }

    // Whether the tables are a lawful mesh: the first cause against it by number, at its first place.
    #[tactic(auto, unfolding(mesh::specs::Causes::judge))]
    pub fn judge(&self) -> Result<(), Fault>
        ensures { told result ≡ judge (mesh self.now) }
    {
        let sized = self.sized()?;
        sized.judge_corners()?;
        sized.judge_friends()?;
        sized.judge_marks()?;
        let worded = WordedTables {
            tables: sized.tables,
        };
        worded.judge_pairs()?;
        sized.judge_starts()?;
        let steps = worded.judge_walks()?;
        sized.judge_met(steps)
    }
}

// Five passes match the first place that fails. One function over a test and a fault would be that match with two closures more, and a clause over their posts.
// Under map_or one goal holds both outcomes, and its proof did not close.
impl SizedTables<'_> {
    // 4: every corner names a point.
    fn judge_corners(&self) -> Result<(), Fault>
        ensures { (rest : Verdict) → told_or result rest ≡ each 4 (corner_ok (mesh self.now.tables)) (4 * (mesh self.now.tables).quads) rest }
    {
        let points = self.tables.starts.len();
        let no_point = |v: &u32| *v as usize >= points;
        match self.tables.corners.iter().position(no_point) {
            Some(c) => Err(Fault::NoSuchPoint(Corner(c as u32))),
            None => Ok(()),
        }
    }

    // 5: every off-edge has an edge for friend.
    fn judge_friends(&self) -> Result<(), Fault>
        ensures { (rest : Verdict) → told_or result rest ≡ each 5 (friend_ok (mesh self.now.tables)) (2 * (mesh self.now.tables).quads) rest }
    {
        let edges = 2 * self.tables.quads();
        let no_edge = |g: &u32| *g as usize >= edges;
        match self.tables.friends.iter().position(no_edge) {
            Some(o) => Err(Fault::NoSuchEdge(OffEdge(o as u32))),
            None => Ok(()),
        }
    }

    // 6: every mark word stands for a mark.
    fn judge_marks(&self) -> Result<(), Fault>
        ensures { (rest : Verdict) → told_or result rest ≡ each 6 (mark_ok (mesh self.now.tables)) (2 * (mesh self.now.tables).quads) rest }
    {
        let no_mark = |w: &u32| Mark::try_from(*w).is_err();
        match self.tables.marks.iter().position(no_mark) {
            Some(o) => Err(Fault::NoMark(OffEdge(o as u32))),
            None => Ok(()),
        }
    }

    // 8: every point has a corner of its own to start from.
    fn judge_starts(&self) -> Result<(), Fault>
        ensures { (rest : Verdict) → told_or result rest ≡ each 8 (start_ok (mesh self.now.tables)) (mesh self.now.tables).points rest }
    {
        let elsewhere = |(v, c): (usize, &u32)| {
            self.tables.corners.get(*c as usize).map(|p| *p as usize) != Some(v)
        };
        match self.tables.starts.iter().enumerate().position(elsewhere) {
            Some(v) => Err(Fault::NotAtPoint(Point(v as u32))),
            None => Ok(()),
        }
    }

    // 10: the walks, of so many steps together, meet every corner.
    fn judge_met(&self, steps: u32) -> Result<(), Fault>
        requires { steps ≡ total (valence (mesh self.now.tables)) (mesh self.now.tables).points }
        ensures { told result ≡ once 10 (all_met (mesh self.now.tables)) fine }
    {
        if (steps as usize) < self.tables.corners.len() {
            return Err(Fault::CornersUnmet);
        }
        Ok(())
    }
}

impl WordedTables<'_> {
    // Whether the friend of an off-edge runs the other way.
    fn runs_back(&self, off: OffEdge) -> bool
        requires { off.0 < 2 * (mesh self.now.tables).quads }
        ensures { result ≡ back_ok (mesh self.now.tables) off.0 }
    {
        let record = self.tables.record(off);
        let from = 2 * record.friend.0 as usize;
        self.tables.corners[from] == record.end.0 && self.tables.corners[from + 1] == record.begin.0
    }

    // 7: every friend runs the other way.
    fn judge_pairs(&self) -> Result<(), Fault>
        ensures { (rest : Verdict) → told_or result rest ≡ each 7 (back_ok (mesh self.now.tables)) (2 * (mesh self.now.tables).quads) rest }
    {
        let unopposed = |(o, _): (usize, &u32)| !self.runs_back(OffEdge(o as u32));
        match self.tables.friends.iter().enumerate().position(unopposed) {
            Some(o) => Err(Fault::NotOpposed(OffEdge(o as u32))),
            None => Ok(()),
        }
    }

    // The corner a step on from a corner of the tables.
    #[tactic(auto, using(crate::proofs::Reading::step_by))]
    fn next(&self, corner: Corner) -> Corner
        requires { corner.0 < 4 * (mesh self.now.tables).quads }
        ensures is { result.0 ≡ step (mesh self.now.tables) corner.0 }
        ensures below { result.0 < 4 * (mesh self.now.tables).quads }
    {
        Corner(2 * self.tables.record(off_edge(corner)).friend.0 + corner.0 % 2)
    }

    // The steps until the walk from a start is back, if it is within 64: a walk may run into a ring that misses its start.
    fn valence(&self, from: Corner) -> Option<u32>
        requires { from.0 < 4 * (mesh self.now.tables).quads }
        ensures { (v : ℕ) → start (mesh self.now.tables) v ≡ from.0 → MatchOption result (longest < valence (mesh self.now.tables) v) (λ n. (n ≡ valence (mesh self.now.tables) v) × (n ≤ longest)) }
    {
        let mut corner = from;
        // The steps of the walk up to `corner`: counted from 1 to 64, its invariant would speak of one step less.
        for steps in 0..LONGEST {
            corner = self.next(corner);
            if corner.0 == from.0 {
                return Some(steps + 1);
            }
        }
        None
    }

    // 9: every walk is back in time. The steps of all together.
    fn judge_walks(&self) -> Result<u32, Fault>
        requires { Started (mesh self.now.tables) }
        ensures verdict { (rest : Verdict) → told_or result rest ≡ each 9 (walk_ok (mesh self.now.tables)) (mesh self.now.tables).points rest }
        ensures steps { IfOk result (λ n. n ≡ total (valence (mesh self.now.tables)) (mesh self.now.tables).points) }
    {
        let mut steps = 0;
        // A loop, for it sums and fails at an item: under try_fold the proof that the sum fits did not close.
        for (v, c) in self.tables.starts.iter().enumerate() {
            steps += self
                .valence(Corner(*c))
                .filter(|n| *n >= SHORTEST)
                .ok_or(Fault::NotBack(Point(v as u32)))?;
        }
        Ok(steps)
    }
}
