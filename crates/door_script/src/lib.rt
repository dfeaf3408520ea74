// The text of a script: a line read as a call.
#![tactic(auto)]

pub mod line;
