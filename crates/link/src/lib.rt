// The link between two ends: the rules of an end, and what holds of every run of calls.
#![tactic(auto)]

pub mod counts;
pub mod side;
pub mod worked;
