// The words of a line of text, and what one word means: numbers, ports, names and addresses.
#![tactic(auto)]

pub mod bytes;
pub mod parts;
pub mod reader;
