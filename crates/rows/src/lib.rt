// The frames that wait at one port: where each stands, in which order they leave, and how many in a tick.
#![tactic(auto)]

pub mod budget;
pub mod order;
pub mod refused;
pub mod row;
pub mod slot;
#[cfg(test)]
mod tests;
