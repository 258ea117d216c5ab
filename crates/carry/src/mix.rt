// Parts added to a running mix by their points, and the blends of face points and of edge points.
// A mix and a weight are no struct: the mix is of the kind's own type, an associated one, and goes on from call to call, and the weight is that of the part.
ghost use Rattle.std.specs.Prelude.{◌≡◌, ℕ, ◌+◌, ◌*◌, ◌<◌, ◌≤◌, min, List, [], ◌∷◌, ◌++◌, length};
ghost use Rattle.carried.specs.Blends.{edge as edge_parts, face as face_parts};
ghost use Rattle.kinds.specs.Parts.{most_weight, total};
ghost use Rattle.mesh.specs.Marks.{word_of};
ghost use Rattle.tables.specs.Lent.{mesh};
ghost use Rattle.carry.specs.Mixes.{Mixed, blend};
ghost use Rattle.carry.specs.Rows.{made};

use crate::reads::{edge, point};
use crate::valued::Valued;
use kinds::row::Rowed;
use kinds::value::{ValueKind, add_part};
use mesh::mark::Mark;
use mesh::number::{Corner, OffEdge, Point, Quad};
use tables::corner::other_end;

// The mark of an edge in 256ths, at most 256.
fn capped(mark: Mark) -> u32
    ensures { result ≡ min (word_of mark) 256 }
{
    match mark {
        Mark::Smooth => 0,
        Mark::SemiSharp(sharpness) => u32::from(sharpness.value()).min(256),
        Mark::Infinite => 256,
    }
}

impl<'a, 'r, K: ValueKind> Valued<'a, 'r, K> {
    // Adds the value at a point.
    pub(crate) fn add_at(&self, at: Point, weight: u32, mix: &mut K::Mix)
        requires { at.0 < (mesh self.now.level.tables).points }
        ensures { (ps : List (ℕ × ℕ)) → Mixed K.blended K.holds (made K.Rowed.verdict self.now.rows.rows.now) mix.old ps → total ps + weight ≤ most_weight → Mixed K.blended K.holds (made K.Rowed.verdict self.now.rows.rows.now) mix.new (ps ++ (at.0, weight) ∷ []) }
    {
        let value = self.rows.value(at.0 as usize);
        add_part(mix, &value, weight);
    }

    // The blend of the face point of a quad.
    pub(crate) fn face(&self, quad: Quad) -> K
        requires { quad.0 < (mesh self.now.level.tables).quads }
        ensures { result ≡ blend K.blended (made K.Rowed.verdict self.now.rows.rows.now) (face_parts (mesh self.now.level.tables) quad.0) }
    {
        let first = 4 * quad.0;
        let mut mix = K::start();
        // the parts one by one, as they are stated: tried as a loop, the proof did not close without an invariant of the parts so far
        self.add_at(point(&self.level, Corner(first)), 1, &mut mix);
        self.add_at(point(&self.level, Corner(first + 1)), 1, &mut mix);
        self.add_at(point(&self.level, Corner(first + 2)), 1, &mut mix);
        self.add_at(point(&self.level, Corner(first + 3)), 1, &mut mix);
        K::finish(mix)
    }

    // The blend of the edge point of an off-edge.
    #[tactic(auto, unfolding(mesh::specs::Mesh::other_end))]
    pub(crate) fn edge(&self, off: OffEdge) -> K
        requires { off.0 < 2 * (mesh self.now.level.tables).quads }
        ensures { result ≡ blend K.blended (made K.Rowed.verdict self.now.rows.rows.now) (edge_parts (mesh self.now.level.tables) off.0) }
    {
        let record = edge(&self.level, off);
        let a = capped(record.mark);
        let near = 6 * (256 - a) + 8 * a;
        let far = 256 - a;
        let first = 4 * (off.0 / 2);
        let side = off.0 % 2;
        let from = 2 * record.friend.0;
        let mut mix = K::start();
        self.add_at(record.begin, near, &mut mix);
        self.add_at(record.end, near, &mut mix);
        self.add_at(point(&self.level, Corner(first + side)), far, &mut mix);
        self.add_at(
            point(&self.level, Corner(first + (3 - side))),
            far,
            &mut mix,
        );
        self.add_at(point(&self.level, other_end(Corner(from))), far, &mut mix);
        self.add_at(
            point(&self.level, other_end(Corner(from + 1))),
            far,
            &mut mix,
        );
        K::finish(mix)
    }
}
