// The whole promise about chains of calls, for any value kind and any corner kind.
#![tactic(auto)]

ghost use Rattle.promise.specs.Whole.{EveryChainKeepsAll};

use kinds::corner::CornerKind;
use kinds::value::ValueKind;

pub mod built;
pub mod performed;

// After every list of calls the mesh is kept, values that are carried along stay in range, and seams that met still meet.
pub fn every_chain_keeps_all<K: ValueKind, C: CornerKind>()
    ensures { EveryChainKeepsAll K.ValueKind.lies K.ValueKind.blended C.CornerKind.middle }
{}
