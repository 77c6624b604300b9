// The words that all layers share: notes, journal entries, frames, limits and refusals.
#![tactic(auto)]

pub mod entry;
pub mod frame;
pub mod limits;
pub mod note;
pub mod refusal;
pub mod roll;
