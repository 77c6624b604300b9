// What a ring does with calls, and what its runs promise. The rules and the promises are in specs/.
#![tactic(auto)]

pub mod call;
pub mod examples;
pub mod promises;
