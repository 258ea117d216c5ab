// The blends of moved points.
ghost use Rattle.std.specs.Prelude.{◌≡◌, ℕ, ◌+◌, ◌*◌, ◌<◌, ◌≤◌, true, List, [], ◌∷◌, ◌++◌, map, length, nat_lt};
ghost use Rattle.carried.specs.Blends.{cornered, creased, marked as marked_at, moved as moved_parts, sharpness as sharpness_at, smooth as smooth_parts, times as times_parts};
ghost use Rattle.kinds.specs.Parts.{most_weight, total};
ghost use Rattle.mesh.specs.Marks.{word_of};
ghost use Rattle.mesh.specs.Mesh.{point as point_of, valence as valence_at, other_end as other_end_of};
ghost use Rattle.tables.specs.Lent.{mesh};
ghost use Rattle.carry.specs.Mixes.{Mixed, blend};
ghost use Rattle.carry.specs.Rows.{made};
ghost use Rattle.carry.specs.Walks.{Seen};

use crate::around::around;
use crate::reads::{marked_step, point, step};
use crate::valued::Valued;
use crate::vertex::Vertex;
use kinds::row::Rowed;
use kinds::value::ValueKind;
use mesh::mark::Mark;
use mesh::number::{Corner, Point};
use tables::corner::{diagonal, other_end};

fn is_marked(mark: Mark) -> bool
    ensures { result ≡ nat_lt 0 (word_of mark) }
{
    mark != Mark::Smooth
}

impl<'v, 'a, 'r, K: ValueKind> Vertex<'v, 'a, 'r, K> {
    // The sum of the marks, at most 256 for each; 256 for each if one is infinite.
    fn sharpness(&self) -> u32
        ensures { result ≡ sharpness_at (mesh self.now.valued.now.level.tables) self.now.point.0 }
    {
        let most = 256 * self.seen.marked;
        self.seen.sum.map_or(most, |sum| sum.min(most))
    }

    // Adds the parts of a smooth point, each weight so many times.
    fn add_smooth(&self, times: u32, mix: &mut K::Mix)
        requires { times ≤ 16384 }
        ensures { (ps : List (ℕ × ℕ)) → Mixed K.blended K.holds (made K.Rowed.verdict self.now.valued.now.rows.rows.now) mix.old ps → total ps + times * (4 * (self.now.seen.valence * self.now.seen.valence)) ≤ most_weight → Mixed K.blended K.holds (made K.Rowed.verdict self.now.valued.now.rows.rows.now) mix.new (ps ++ times_parts times (smooth_parts (mesh self.now.valued.now.level.tables) self.now.point.0)) }
    {
        let valued = self.valued;
        let n = self.seen.valence;
        valued.add_at(self.point, times * (n * (4 * n - 7)), mix);
        let mut corner = Corner(valued.level.tables.starts[self.point.0 as usize]);
        // counts the steps of a walk, and indexes nothing; unlike the other two walks it reads no mark
        for _met in 0..n {
            valued.add_at(point(&valued.level, other_end(corner)), times * 6, mix);
            valued.add_at(point(&valued.level, diagonal(corner)), times, mix);
            corner = step(&valued.level, corner);
        }
    }

    // Adds the other end of each marked off-edge that the walk meets, with this weight.
    fn add_marked(&self, weight: u32, mix: &mut K::Mix)
        ensures { (ps : List (ℕ × ℕ)) → Mixed K.blended K.holds (made K.Rowed.verdict self.now.valued.now.rows.rows.now) mix.old ps → total ps + length (marked_at (mesh self.now.valued.now.level.tables) self.now.point.0) * weight ≤ most_weight → Mixed K.blended K.holds (made K.Rowed.verdict self.now.valued.now.rows.rows.now) mix.new (ps ++ map (λ c. (point_of (mesh self.now.valued.now.level.tables) (other_end_of c), weight)) (marked_at (mesh self.now.valued.now.level.tables) self.now.point.0)) }
    {
        let valued = self.valued;
        let mut corner = Corner(valued.level.tables.starts[self.point.0 as usize]);
        // counts the steps of a walk, and indexes nothing; it reads the mark, and unlike the walk that finds the valence it knows its length
        for _met in 0..self.seen.valence {
            let (mark, next) = marked_step(&valued.level, corner);
            if is_marked(mark) {
                valued.add_at(point(&valued.level, other_end(corner)), weight, mix);
            }
            corner = next;
        }
    }

    // At fewer than two marked off-edges: the smooth parts alone.
    fn smooth(&self) -> K
        ensures { result ≡ blend K.blended (made K.Rowed.verdict self.now.valued.now.rows.rows.now) (smooth_parts (mesh self.now.valued.now.level.tables) self.now.point.0) }
    {
        let mut mix = K::start();
        self.add_smooth(1, &mut mix);
        K::finish(mix)
    }

    // At two, a crease: the smooth parts, then the point, then the other ends of the two.
    fn crease(&self) -> K
        requires { self.now.seen.marked ≡ 2 }
        ensures { result ≡ blend K.blended (made K.Rowed.verdict self.now.valued.now.rows.rows.now) (creased (mesh self.now.valued.now.level.tables) self.now.point.0) }
    {
        let n = self.seen.valence;
        let s = self.sharpness();
        let weight = 4 * (n * n) * s;
        let mut mix = K::start();
        self.add_smooth(8 * (512 - s), &mut mix);
        self.valued.add_at(self.point, 6 * weight, &mut mix);
        self.add_marked(weight, &mut mix);
        K::finish(mix)
    }

    // At more, a corner: the smooth parts, then the point.
    fn peak(&self) -> K
        ensures { result ≡ blend K.blended (made K.Rowed.verdict self.now.valued.now.rows.rows.now) (cornered (mesh self.now.valued.now.level.tables) self.now.point.0) }
    {
        let n = self.seen.valence;
        let s = self.sharpness();
        let mut mix = K::start();
        self.add_smooth(256 * self.seen.marked - s, &mut mix);
        self.valued.add_at(self.point, 4 * (n * n) * s, &mut mix);
        K::finish(mix)
    }
}

impl<'a, 'r, K: ValueKind> Valued<'a, 'r, K> {
    // The blend of a moved point.
    pub(crate) fn moved(&self, point: Point) -> K
        requires within { point.0 < (mesh self.now.level.tables).points }
        ensures { result ≡ blend K.blended (made K.Rowed.verdict self.now.rows.rows.now) (moved_parts (mesh self.now.level.tables) point.0) }
    {
        let vertex = Vertex {
            valued: self,
            point,
            seen: around(&self.level, point),
        };
        if vertex.seen.marked < 2 {
            return vertex.smooth();
        }
        if vertex.seen.marked == 2 {
            return vertex.crease();
        }
        vertex.peak()
    }
}
