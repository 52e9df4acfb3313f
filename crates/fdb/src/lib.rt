// The forwarding database of one tree: where stations were last heard, and when; what is old is forgotten, and when there is no room the longest unheard of goes.
#![tactic(auto)]

mod ageing;
mod entry;
mod learning;
mod search;
mod station;
mod table;
#[cfg(test)]
mod tests;
mod theorems;

pub use ageing::LIFETIME;
pub use entry::{Entry, Location};
pub use station::Station;
pub use table::{MOST, Table};
pub use theorems::{
    ageing_stands, history_stands, learning_stands, longest_stands, stations_stand,
};
