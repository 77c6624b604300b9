// What a wire is: one line of frames for each station of a roll. A wire does not look into what it carries.
#![tactic(auto)]

pub mod installer;
pub mod making;
pub mod wire;
