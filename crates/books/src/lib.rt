// What a book is, and reading a list by place and by a test.
#![tactic(auto)]

pub mod book;
pub mod limits;
pub mod search;
