// The book that tells which station has a paper file.
#![tactic(auto)]

pub mod claim;
pub mod claim_book;
pub mod claim_verdict;
pub mod laws;
pub mod limits;
