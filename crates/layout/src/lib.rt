// The net that a script describes: boxes, cables and stations, built line by line.
#![tactic(auto)]

pub mod names;
pub mod net;
pub mod roster;
pub mod session;
pub mod stations;
