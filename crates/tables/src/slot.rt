// Where the points of a refined level stand: the slot of each old point, of each quad's face point and of each edge's point.
// A slot is an index, and no number of a point is too large for it.
ghost use Rattle.std.specs.Prelude.{◌≡◌};
ghost use Rattle.mesh.specs.Mesh.{Mesh};
ghost use Rattle.refinement.specs.Tasks.{old_slot, face_slot, edge_slot};

use mesh::number::{Edge, Point, Quad};

// The new slot of an old point of a mesh with so many quads.
#[tactic(auto, using(std::proofs::lemmas::Bool::Decides::nat_tests), unfolding(refinement::specs::Tasks::old_slot))]
pub fn old_slot(quads: u32, point: Point) -> usize
    ensures { (m : Mesh) → m.quads ≡ quads → result ≡ old_slot m point.0 }
{
    if point.0 <= quads {
        4 * (point.0 as usize)
    } else {
        3 * (quads as usize) + point.0 as usize
    }
}

// The slot of the face point of a quad.
#[tactic(auto, unfolding(refinement::specs::Tasks::face_slot))]
pub fn face_slot(quad: Quad) -> usize
    ensures { result ≡ face_slot quad.0 }
{
    4 * (quad.0 as usize) + 1
}

// The slot of the point of an edge.
#[tactic(auto, unfolding(refinement::specs::Tasks::edge_slot))]
pub fn edge_slot(edge: Edge) -> usize
    ensures { result ≡ edge_slot edge.0 }
{
    let e = edge.0 as usize;
    4 * (e / 2) + 2 + e % 2
}
