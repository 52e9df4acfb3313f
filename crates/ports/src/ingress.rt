// Whence a frame came.
ghost use Rattle.std.specs.Prelude.{◌≡◌};
ghost use Rattle.ports.specs.Places.{place_at, came_of, where_from, sender};

use crate::{PortId, Vlan};
use fdb::Location;
use sets::BridgeId;

// Whence a frame came to a bridge.
#[derive(Clone, Copy, PartialEq, Eq, Debug)]
pub enum Ingress {
    // From a station behind an access port.
    Station(PortId),
    // From a neighbour: the one that the frame names.
    Neighbour(BridgeId),
}

// A frame as it comes in: its VLAN, and whence it comes.
#[derive(Clone, Copy, PartialEq, Eq, Debug)]
pub struct Inbound {
    pub vlan: Vlan,
    pub ingress: Ingress,
}

impl Ingress {
    // Where the sender of a frame that came so is.
    pub fn location(self) -> Location
        ensures { (result ≡ where_from self) × (place_at result ≡ sender (came_of self)) }
    {
        // Stays: a match of variant to variant is the plain form; From<Ingress> for Location would say less than the name.
        match self {
            Ingress::Station(port) => Location::Here(port.value()),
            Ingress::Neighbour(bridge) => Location::Behind(bridge.value()),
        }
    }
}
