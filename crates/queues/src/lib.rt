// What leaves by each port: control messages first, then frames in the order in which they came, up to 64 each tick.
#![tactic(auto)]

mod port;
mod queues;
mod refused;
#[cfg(test)]
mod tests;
pub mod theorems;

pub(crate) use port::PortQueue;
pub use queues::Queues;
pub use refused::Refused;
