// A ring of stations: its six calls, and runs of calls.
#![tactic(auto)]

pub mod ring;
