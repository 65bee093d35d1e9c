// What carries frames one way between two ends: in order, and perhaps with losses and harm.
#![tactic(auto)]

pub mod carrier;
pub mod fault;
pub mod harm;
pub mod harming;
mod queue;
pub mod straight;
