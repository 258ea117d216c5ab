// From a corner to the off-edge at it, and to the other corners of its quad.
ghost use Rattle.std.specs.Prelude.{◌≡◌};
ghost use Rattle.mesh.specs.Mesh.{diagonal, off_edge, other_end};

use mesh::number::{Corner, OffEdge};

// The off-edge at a corner.
#[tactic(auto, using(std::proofs::lemmas::Bool::Decides::nat_tests), unfolding(mesh::specs::Mesh::off_edge))]
pub fn off_edge(corner: Corner) -> OffEdge
    ensures { result.0 ≡ off_edge corner.0 }
{
    let quad = corner.0 / 4;
    match corner.0 % 4 {
        1 | 2 => OffEdge(2 * quad),
        _ => OffEdge(2 * quad + 1),
    }
}

// The other corner of the off-edge at a corner.
#[tactic(auto, unfolding(mesh::specs::Mesh::other_end))]
pub fn other_end(corner: Corner) -> Corner
    ensures { result.0 ≡ other_end corner.0 }
{
    Corner(4 * (corner.0 / 4) + (3 - corner.0 % 4))
}

// The corner opposite a corner in its quad.
#[tactic(auto, unfolding(mesh::specs::Mesh::diagonal))]
pub fn diagonal(corner: Corner) -> Corner
    ensures { result.0 ≡ diagonal corner.0 }
{
    Corner(4 * (corner.0 / 4) + (corner.0 % 4 + 2) % 4)
}
