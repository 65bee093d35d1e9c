// The terms that every layer of the box speaks in: marks, replies, what a frame holds, and refusals.
#![tactic(auto)]

pub mod content;
pub mod fault;
pub mod mark;
pub mod reply;
pub mod unknown;
