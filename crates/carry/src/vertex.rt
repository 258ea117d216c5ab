// A point of a level with its values, and what the walk there meets.
ghost use Rattle.std.specs.Prelude.{◌≡◌, ◌<◌};
ghost use Rattle.carried.specs.Blends.{marked};
ghost use Rattle.mesh.specs.Mesh.{valence};
ghost use Rattle.tables.specs.Lent.{mesh};
ghost use Rattle.carry.specs.Walks.{Seen};

use crate::seen::Around;
use crate::valued::Valued;
use kinds::value::ValueKind;
use mesh::number::Point;

#[derive(Drop)]
pub(crate) struct Vertex<'v, 'a, 'r, K: ValueKind> {
    pub(crate) valued: &'v Valued<'a, 'r, K>,
    pub(crate) point: Point,
    pub(crate) seen: Around,
    ghost within: { point.0 < (mesh valued.now.level.tables).points },
    ghost steps: { seen.valence ≡ valence (mesh valued.now.level.tables) point.0 },
    ghost sees: { Seen (mesh valued.now.level.tables) (marked (mesh valued.now.level.tables) point.0) seen },
}
