// The working store of a mesh refiner: one standing level, and at most one level in work.
#![tactic(auto)]

pub mod bench;
pub mod level;
pub mod stage;
mod words;
