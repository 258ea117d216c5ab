// Each function's contract is a law, proved in proofs/.
#![tactic(auto)]

ghost use Rattle.refinement.specs.Laws.{AnyListOfTasks, AnyOrder, CausesTriedInOrder, CornersMetOnce, EdgesServeOnce, FriendsPair, HalvesAre, Judges, LevelsLawful, MarksFall, PillowCases, RefinedIs, RefinementKeepsLawful, RunAgain, SlotsOwnedOnce, StepKeeps, TablesHaveShape, TasksStand, TasksWait, ValencesKept, WorkBegins, WorkGoesOn};

// A mesh is declined for its first cause at the first place of that cause, and for no other.
pub fn causes_tried_in_order()
    ensures { CausesTriedInOrder }
{}

// No cause is found exactly in a lawful mesh.
pub fn judges()
    ensures { Judges }
{}

// Four tables make a mesh of their counts exactly where they fit together.
pub fn tables_have_shape()
    ensures { TablesHaveShape }
{}

// A step keeps the point and the side of the corner.
pub fn step_keeps()
    ensures { StepKeeps }
{}

// Every corner is met by one walk, once.
pub fn corners_met_once()
    ensures { CornersMetOnce }
{}

// Every edge is the friend of one off-edge.
pub fn edges_serve_once()
    ensures { EdgesServeOnce }
{}

// Each off-edge has an edge for friend, run the other way, and no edge serves two.
pub fn friends_pair()
    ensures { FriendsPair }
{}

// Every slot of a new table is written by one task.
pub fn slots_owned_once()
    ensures { SlotsOwnedOnce }
{}

// The level in work before any task.
pub fn work_begins()
    ensures { WorkBegins }
{}

// The level in work after one task more.
pub fn work_goes_on()
    ensures { WorkGoesOn }
{}

// What a task wrote stands, whatever ran after it.
pub fn tasks_stand()
    ensures { TasksStand }
{}

// The slots of a task that has not run are 0.
pub fn tasks_wait()
    ensures { TasksWait }
{}

// A task that stands is run again to no effect.
pub fn run_again()
    ensures { RunAgain }
{}

// Every task at least once, in any order, makes the refined level.
pub fn any_order()
    ensures { AnyOrder }
{}

// After any list of tasks each slot holds its word if its task is in the list, and else 0; with all tasks it is the refined level.
pub fn any_list_of_tasks()
    ensures { AnyListOfTasks }
{}

// A level in which every task stands is the refined one.
pub fn refined_is()
    ensures { RefinedIs }
{}

// A refined level is lawful.
pub fn refinement_keeps_lawful()
    ensures { RefinementKeepsLawful }
{}

// So is every further level that is not too large.
pub fn levels_lawful()
    ensures { LevelsLawful }
{}

// An old point keeps its valence, and every new one has 4.
pub fn valences_kept()
    ensures { ValencesKept }
{}

// The edges made inside a quad are smooth, and the halves of an edge have its fallen mark.
pub fn marks_fall()
    ensures { MarksFall }
{}

// Each new edge that is not made inside a quad is a half of exactly one edge.
pub fn halves_are()
    ensures { HalvesAre }
{}

// The pillow is lawful, and refined as written out.
pub fn pillow_cases()
    ensures { PillowCases }
{}
