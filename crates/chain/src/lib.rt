// Each function's contract is a promise, proved in proofs/.
#![tactic(auto)]

ghost use Rattle.chain.specs.Cases.{PillowChains, RefusedLoads, TextChains};
ghost use Rattle.chain.specs.Causes.{CallsRefusedInOrder};
ghost use Rattle.chain.specs.Clauses.{CallByCall, TextsLoadAsTables};
ghost use Rattle.chain.specs.Promise.{EveryChainKeepsTheMesh};

// After any calls the standing level is the mesh loaded latest, refined once for each finish since, and is whole.
pub fn every_chain_keeps_the_mesh()
    ensures { EveryChainKeepsTheMesh }
{}

// It holds of a bench that is made, and each call keeps it.
pub fn call_by_call()
    ensures { CallByCall }
{}

// A text that is read is loaded as its tables are, and else refused with what reading says.
pub fn texts_load_as_tables()
    ensures { TextsLoadAsTables }
{}

// A call is refused for its first cause at its first place, and carried out where it has no cause.
pub fn calls_refused_in_order()
    ensures { CallsRefusedInOrder }
{}

// Some chains on the pillow, and what is refused in them.
pub fn pillow_chains()
    ensures { PillowChains }
{}

// Tables that are refused, one for each cause.
pub fn refused_loads()
    ensures { RefusedLoads }
{}

// The same from a text, and what is refused of it.
pub fn text_chains()
    ensures { TextChains }
{}
