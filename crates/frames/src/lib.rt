// Frames of stations, frames between bridges, and the settings of a bridge, in bytes.
#![tactic(auto)]

mod forwarded;
mod settings;
mod station_frame;

pub use forwarded::{Header, inner_frame};
pub use settings::{MOST_PORTS, Settings};
pub use station_frame::{AtAccess, StationFrame, read_at_access, same_address};
