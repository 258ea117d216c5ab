// Lists of requests to a bench.
#![tactic(auto)]

pub mod form;
pub mod perform;
pub mod request;
