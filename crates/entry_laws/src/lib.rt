// The laws of the entry book in its own words, and worked examples.
#![tactic(auto)]

pub mod examples;
pub mod laws;
