// The messages by which bridges find their neighbours, their links and their trees, in bytes.
#![tactic(auto)]

mod ack;
mod hello;
mod link_state;
mod message;
mod tree;

pub use ack::{Ack, Acked};
pub use hello::{Hello, is_hello};
pub use link_state::LinkState;
pub use message::Message;
pub use tree::{decode_tree, encode_tree};
