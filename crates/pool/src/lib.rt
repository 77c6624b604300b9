// The wire that keeps each frame once.
#![tactic(auto)]

pub mod place;
pub mod pool_wire;
