// Quads, edges, off-edges, corners, points and tasks are each counted from 0 in a count of their own.
// Each number has a type of its own, so that no call takes one where another is due.

// A quad; its corners are 4q to 4q + 3, in winding order.
#[derive(Clone, Copy, PartialEq, Eq, PartialOrd, Ord, Hash, Debug)]
pub struct Quad(pub u32);

// An on-edge; edge e runs from corner 2e to corner 2e + 1.
#[derive(Clone, Copy, PartialEq, Eq, PartialOrd, Ord, Hash, Debug)]
pub struct Edge(pub u32);

// An off-edge; 2q runs from corner 4q + 1 to 4q + 2, and 2q + 1 from corner 4q + 3 to 4q. Its friend is an `Edge`.
#[derive(Clone, Copy, PartialEq, Eq, PartialOrd, Ord, Hash, Debug)]
pub struct OffEdge(pub u32);

// A corner of a quad; it lies at a point.
#[derive(Clone, Copy, PartialEq, Eq, PartialOrd, Ord, Hash, Debug)]
pub struct Corner(pub u32);

// A point of the mesh.
#[derive(Clone, Copy, PartialEq, Eq, PartialOrd, Ord, Hash, Debug)]
pub struct Point(pub u32);

// A task of a level in work: with F quads, task q below F is that of quad q, and task F + v that of point v.
#[derive(Clone, Copy, PartialEq, Eq, PartialOrd, Ord, Hash, Debug)]
pub struct Task(pub u32);
