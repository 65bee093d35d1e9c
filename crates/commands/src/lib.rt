// The commands of a script: what they ask, what they do and what they answer.
#![tactic(auto)]

pub mod answer;
mod characters;
pub mod command;
mod hex;
pub mod session;
pub mod trouble;
