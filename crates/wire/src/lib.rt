// Reading and writing bytes: numbers high byte first, and the sum at the end of every message between bridges.
#![tactic(auto)]

mod count;
mod fault;
mod kind;
mod reader;
mod sum;
mod tree_id;

pub use count::Count;
pub use fault::Fault;
pub use kind::Kind;
pub use reader::Reader;
pub use sum::{append, append_summed, is_summed, is_whole, kind_of};
pub use tree_id::tree_id_bytes;
