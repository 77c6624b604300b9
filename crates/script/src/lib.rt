// A script: its text cut into lines and words, and read as the roll and the calls on a ring.
#![tactic(auto)]

pub mod command;
pub mod limits;
mod lines;
mod number;
pub mod script;
mod verb;
mod words;
