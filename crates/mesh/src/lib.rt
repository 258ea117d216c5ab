// The words of the subject as types: numbers of quads, edges, corners and points, the mark of an edge, and why a call is refused.
#![tactic(auto)]

pub mod fault;
pub mod mark;
pub mod number;
