// The wire that keeps a line for each station.
#![tactic(auto)]

pub mod line_wire;
