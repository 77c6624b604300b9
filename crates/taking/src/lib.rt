// Taking a frame, over any journal.
#![tactic(auto)]

pub mod filing;
pub mod lawful;
pub mod take;
