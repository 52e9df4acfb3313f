// Ports: where a bridge's cables go in.
ghost use Rattle.std.specs.Prelude.{◌≡◌, ◌<◌, ◌≤◌, MatchOption, slice_index_or};

use crate::Vlan;
use sets::BridgeId;

// The number of a port of a bridge: so that its array of ports may be indexed by it.
// A type of its own, as BridgeId is, and no common `Below<MOST>`: the two names say of what a number is, and can't be mixed up.
#[derive(Clone, Copy, PartialEq, Eq, Debug)]
pub struct PortId {
    value: u8,
    ghost ok: { value < 16 },
}

impl PortId {
    // The port with this number: None where no bridge has it.
    // Stays: `new` is public, and a TryFrom beside it would have an error that says no more than None.
    pub fn new(value: u8) -> Option<PortId>
        ensures { MatchOption result (16 ≤ value) (λ p. (value < 16) × (p.value ≡ value)) }
    {
        if usize::from(value) < crate::MOST_PORTS {
            Some(PortId { value })
        } else {
            None
        }
    }

    // Its number.
    // Stays: `value` is public, and `u8::from(port)` would lose that it is below 16.
    pub fn value(self) -> u8
        ensures { (result ≡ self.value) × (result < 16) }
    {
        self.value
    }

    // Its number as an index.
    // Stays: `index` is public, and `usize::from(port)` would lose that it is below 16.
    pub fn index(self) -> usize
        ensures { (result ≡ self.value) × (result < 16) }
    {
        usize::from(self.value)
    }
}

// What a port is for.
#[derive(Clone, Copy, PartialEq, Eq, Debug)]
pub enum Port {
    // Nothing is handed on by it: it isn't there, or has no VLAN or no neighbour yet.
    Unused,
    // It leads to stations of one VLAN.
    Access(Vlan),
    // It leads to a neighbour, by a link that this bridge believes to be up or not.
    Trunk(Link),
}

// A link to a neighbour.
#[derive(Clone, Copy, PartialEq, Eq, Debug)]
pub struct Link {
    pub neighbour: BridgeId,
    pub up: bool,
}

// The port with a number, and an unused one where the bridge has none with it.
pub fn port_at(ports: &[Port; 16], i: usize) -> Port
    ensures { result ≡ slice_index_or ports.now i Port.Unused }
{
    ports.get(i).copied().unwrap_or(Port::Unused)
}
