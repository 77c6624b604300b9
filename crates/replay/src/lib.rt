// From the bytes of a script to the bytes of its print.
#![tactic(auto)]

mod answers;
pub mod replay;
mod stations;
