// The book of customs entries.
#![tactic(auto)]

pub mod customs_entry;
pub mod entry_act;
pub mod entry_book;
pub mod entry_verdict;
pub mod limits;
