// Code over the four tables of a mesh, lent: the record of an off-edge, steps, and whether the tables are a lawful mesh.
#![tactic(auto, using(std::proofs::lemmas::Bool::Decides::nat_tests), unfolding(mesh::specs::Causes::mesh_of, mesh::specs::Causes::once, mesh::specs::Causes::shape_ok, mesh::specs::Causes::quads_ok, mesh::specs::Causes::points_ok, mesh::specs::Causes::all_met, mesh::specs::Causes::back_ok))]

pub mod corner;
pub mod edge;
pub mod judge;
pub mod lawful;
pub mod lent;
pub mod slot;
