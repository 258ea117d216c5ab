// The text format of meshes, and reading it into lent tables.
#![tactic(auto)]

mod digits;
mod frame;
pub mod kind;
pub mod lent;
pub mod reader;

pub use lent::TablesMut;
pub use reader::{Counts, read, read_counts};
