// What a kind of value has to say and to show, so that values of it can be carried along a refinement.
// A value kind lives on the points of a mesh, and a corner kind on its corners.
#![tactic(auto)]

pub mod corner;
pub mod row;
pub mod value;
pub mod weight;
