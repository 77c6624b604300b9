// A station with its memory: its calls, its questions, and the laws that they keep.
#![tactic(auto)]

pub mod examples;
pub mod laws;
pub mod station;
pub mod turn;
