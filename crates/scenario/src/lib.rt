// Plays bridges, cables and stations as a script says: each bridge by value, each copy of a frame from port to port.
#![tactic(auto)]

mod boxes;
mod cables;
mod forest;
mod links;
mod losses;
mod plans;
mod player;
mod resting;
mod slots;
mod travel;

pub use cables::{is_on, link_at, other_end, port_at_start};
pub use forest::{Forest, Refusal};
pub use links::{links_of, relink, start_ports};
pub use losses::Losses;
pub use plans::tree_over;
pub use player::Player;
pub use resting::rests_along;
pub use travel::{Frame, MOST_COPIES, Outcome, Packet, Step, heard_at, leave};
