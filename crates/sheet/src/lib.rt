// What the office prints of its entries: amounts, verdicts in words, and the hand-over sheet.
#![tactic(auto)]

pub mod amount;
pub mod handover;
pub mod line;
pub mod outcome;
pub mod request;
