// What a bridge is in itself.
use crate::Port;
use sets::BridgeId;

// A bridge's number and its ports: what it has before it knows of any tree, and keeps when it falls.
#[derive(Clone, Copy, PartialEq, Eq, Debug)]
pub struct Chassis {
    pub id: BridgeId,
    pub ports: [Port; crate::MOST_PORTS],
}
