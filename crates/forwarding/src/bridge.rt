// The bridge itself.
use crate::held::Held;
use ports::Chassis;

// A bridge: its number and its ports, and the two trees that it adopted last, the newest first.
#[derive(Drop)]
pub struct Bridge {
    pub(crate) chassis: Chassis,
    pub(crate) newest: Held,
    pub(crate) older: Held,
}
