// A bench loaded from text, its standing level written as text, and refusals as frames.
#![tactic(auto)]

pub mod frame;
mod level;
pub mod load;
mod put;
pub mod write;
