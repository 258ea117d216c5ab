// What the walk at a point meets.
ghost use Rattle.std.specs.Prelude.{◌≡◌, ℕ, ◌+◌, ◌<◌, List, [], ◌∷◌, ◌++◌, if◌then◌else◌, nat_lt};
ghost use Rattle.carried.specs.Blends.{marked as marked_at};
ghost use Rattle.mesh.specs.Marks.{word_of};
ghost use Rattle.mesh.specs.Mesh.{Mesh, mark as mark_word, off_edge, valence as valence_at};
ghost use Rattle.tables.specs.Lent.{mesh};
ghost use Rattle.carry.specs.Walks.{Seen};

use crate::reads::marked_step;
use crate::seen::Around;
use mesh::mark::Mark;
use mesh::number::{Corner, Point};
use tables::lawful::LawfulTables;

impl Around {
    // No corner met.
    fn none() -> Around
        ensures none { result.valence ≡ 0 }
        ensures sees { (m : Mesh) → Seen m [] result }
    {
        Around {
            valence: 0,
            marked: 0,
            sum: Some(0),
        }
    }

    // The same with one corner more, whose off-edge has this mark.
    fn more(self, mark: Mark) -> Around
        requires few { self.valence < 64 }
        requires fewer { self.marked < 64 }
        ensures steps { result.valence ≡ self.valence + 1 }
        ensures sees { (m : Mesh) (cs : List ℕ) (c : ℕ) → word_of mark ≡ mark_word m (off_edge c) → Seen m cs self → Seen m (cs ++ (if nat_lt 0 (mark_word m (off_edge c)) then c ∷ [] else [])) result }
    {
        let valence = self.valence + 1;
        match mark {
            Mark::Smooth => Around {
                valence,
                marked: self.marked,
                sum: self.sum,
            },
            Mark::SemiSharp(sharpness) => {
                let value = u32::from(sharpness.value());
                Around {
                    valence,
                    marked: self.marked + 1,
                    sum: self.sum.map(|sum| sum + value),
                }
            }
            Mark::Infinite => Around {
                valence,
                marked: self.marked + 1,
                sum: None,
            },
        }
    }
}

// What the walk at a point meets, until it is back.
pub(crate) fn around<'a>(level: &LawfulTables<'a>, point: Point) -> Around
    requires within { point.0 < (mesh level.now.tables).points }
    ensures steps { result.valence ≡ valence_at (mesh level.now.tables) point.0 }
    ensures sees { Seen (mesh level.now.tables) (marked_at (mesh level.now.tables) point.0) result }
{
    let start = level.tables.starts[point.0 as usize];
    let mut corner = Corner(start);
    let mut seen = Around::none();
    // a walk whose length is known once it is back. One iterator for the three walks is no plainer: they differ in whether they read the mark, and in whether they know the length
    loop {
        let (mark, next) = marked_step(level, corner);
        seen = seen.more(mark);
        corner = next;
        if corner.0 == start {
            return seen;
        }
    }
}
