// The control messages that wait to be sent by one port: of each kind and bridge only the newest.
#![tactic(auto)]

mod acks;
mod control;
mod messages;
#[cfg(test)]
mod tests;
pub mod theorems;
mod version;

pub(crate) use acks::Acks;
pub use acks::{Ack, LinkAck, TreeAck};
pub use control::Control;
pub use messages::Pending;
pub use version::Version;
