// What a station keeps: its state, its journal and the table of the others; and how its firm count is worked out.
#![tactic(auto)]

pub mod member;
pub mod peer;
pub mod reading;
pub mod settle;
pub mod state;
pub mod status;
pub mod store;
