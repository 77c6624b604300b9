// Sets of stations, and the rules that say which sets have the vote.
#![tactic(auto)]

pub mod examples;
pub mod heads;
mod majority;
pub mod mask;
pub mod rule;
pub mod weights;
