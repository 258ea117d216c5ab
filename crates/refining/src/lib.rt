// A bench refined by one level.
#![tactic(auto)]

pub mod once;
