// The turn of a station, over any journal, wire, voting rule and book.
#![tactic(auto)]

// post, put_off, serve and wish ask nothing of status and journal together, so they take them apart, not as a member. The
// wire, the rule and the turn's number are the ring's: a struct of them and a member would be made at every call.
pub mod outbox;
pub mod post;
pub mod put_off;
pub mod ring;
pub mod serve;
pub mod token;
pub mod wish;
