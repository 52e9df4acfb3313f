// Reads scenario scripts, one command to a line.
#![tactic(auto)]

pub mod faults;
pub mod lines;
mod verbs;
