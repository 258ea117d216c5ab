// The working words of a bench, cut into levels. Each contract is a law, proved in proofs/.
#![tactic(auto)]

ghost use Rattle.layout.specs.Laws.{BeginsWrite, FinishesWrite, LoadsWrite, TasksWrite};

// A task changes its own words of the level in work, and no others.
pub fn tasks_write()
    ensures { TasksWrite }
{}

// A load, a begin and a finish lay words side by side, which are the levels that they should be.
pub fn loads_write()
    ensures { LoadsWrite }
{}

pub fn begins_write()
    ensures { BeginsWrite }
{}

pub fn finishes_write()
    ensures { FinishesWrite }
{}
