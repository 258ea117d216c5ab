ghost use Rattle.bench.specs.State.{Few, Room, Stands, Works, Count};

pub mod calls;
pub mod questions;
pub mod slip;
pub mod withdraw;

use crate::stage::Stage;
use crate::words::Words;

// The store of a mesh that is refined level by level, in words that its maker lends: a standing level, and at most one level in work.
#[derive(Drop)]
pub struct Bench<'a> {
    words: Words<'a>,
    // the number that its slips bear
    mark: u32,
    stage: Stage,
    ghost few: { Few stage },
    ghost room: { Room stage words.cells.now },
    ghost lawful: { ∥ Stands stage words.cells.now ∥₁ },
    ghost written: { ∥ Works stage words.cells.now ∥₁ },
    ghost count: { Count stage mark words.cells.now },
}
