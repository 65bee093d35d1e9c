// Frames of a chiplet link: packets, checks, sealing and reading.
#![tactic(auto)]

pub mod frame;
pub mod packet;
mod room;
mod units;
