// The lines that are printed, written into a buffer that the caller lends or added to a text.
#![tactic(auto)]

pub mod line;
mod text;
