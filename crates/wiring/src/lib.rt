// Boxes with their ports, and the cables between them, as a script lays them.
#![tactic(auto)]

pub mod boxes;
pub mod rules;
