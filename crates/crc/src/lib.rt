// The two cyclic checks of the link.
#![tactic(auto)]

pub mod link;
mod polynomial;
pub mod unit;
