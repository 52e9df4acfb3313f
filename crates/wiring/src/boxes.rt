// Up to 6 boxes with up to 16 ports each.
ghost use Rattle.std.specs.Prelude.{◌≡◌, replicate};
ghost use Rattle.std.specs.Slice.{IsItemAt};
ghost use Rattle.wiring.specs.Boxes.{power_at, port_at, number_at, with_port, with_power, with_box, ports_of, no_box};

use scan::parts::PortRef;
use std::array;

/// Boxes are numbered from 0 to 5.
pub(crate) const BOXES: usize = 6;

/// The ports of a box are numbered from 0 to 15.
const PORTS: usize = 16;

// Stays: one match tells Absent, On and Off apart; an Option<Power> over an Option<Node> would be opened twice at each call.
/// Whether a box is there, and switched on.
#[derive(Clone, Copy, PartialEq, Eq, Debug)]
pub enum Power {
    Absent,
    On,
    Off,
}

/// What a port of a box is used for.
#[derive(Clone, Copy, PartialEq, Eq, Debug)]
pub enum Port {
    Absent,
    Free,
    Access(u16),
    Cabled(PortRef),
}

/// A box with its bridge number and its ports.
#[derive(Clone, Copy, PartialEq, Eq, Debug)]
pub struct Node {
    power: Power,
    number: u8,
    ports: [Port; PORTS],
}

/// All boxes of a script.
#[derive(Clone, Copy, PartialEq, Eq, Debug)]
pub struct Wiring {
    nodes: [Node; BOXES],
}

/// A table with the first ports there and free.
fn free_ports(count: u8) -> [Port; PORTS]
    ensures { result ≡ ports_of count }
{
    array::from_fn(|k| {
        if k < usize::from(count) {
            Port::Free
        } else {
            Port::Absent
        }
    })
}

impl Wiring {
    /// No boxes yet.
    pub fn new() -> Wiring
        ensures { result.nodes ≡ replicate 6 (record { power = Power.Absent; number = 0; ports = replicate 16 Port.Absent }) }
    {
        let node = Node {
            power: Power::Absent,
            number: 0,
            ports: [Port::Absent; PORTS],
        };
        Wiring {
            nodes: [node; BOXES],
        }
    }

    /// The place of a box in the table, if there is such a box number.
    fn node(&self, node: u8) -> Option<&Node>
        ensures { IsItemAt self.now.nodes node result }
    {
        self.nodes.get(usize::from(node))
    }

    /// Whether a box is there, and on.
    pub fn power(&self, node: u8) -> Power
        ensures { result ≡ power_at self.now.nodes node }
    {
        self.node(node).map_or(Power::Absent, |n| n.power)
    }

    /// The bridge number of a box, and 0 where there is none.
    // Stays: public; its callers know that the box is there, and an Option would make each of them open it.
    pub fn number(&self, node: u8) -> u8
        ensures { result ≡ number_at self.now.nodes node }
    {
        self.node(node).map_or(0, |n| n.number)
    }

    /// What a port is used for.
    pub fn port(&self, at: PortRef) -> Port
        ensures { result ≡ port_at self.now.nodes at }
    {
        self.node(at.node)
            .and_then(|n| n.ports.get(usize::from(at.port)))
            .copied()
            .unwrap_or(Port::Absent)
    }

    /// Uses a port for something else.
    // Stays: with `get_mut`, here and in the next two, a proof knows the array's length and no element once the loan has ended.
    pub(crate) fn set_port(&mut self, at: PortRef, port: Port)
        ensures { self.new.nodes ≡ with_port self.old.nodes at port }
    {
        let i = usize::from(at.node);
        let k = usize::from(at.port);
        if i < BOXES && k < PORTS {
            self.nodes[i].ports[k] = port;
        }
    }

    /// Switches a box on or off.
    pub(crate) fn set_power(&mut self, node: u8, power: Power)
        ensures { self.new.nodes ≡ with_power self.old.nodes node power }
    {
        let i = usize::from(node);
        if i < BOXES {
            self.nodes[i].power = power;
        }
    }

    /// Puts a box there, switched on, with its ports free.
    pub(crate) fn set_box(&mut self, node: u8, ports: u8, number: u8)
        ensures { self.new.nodes ≡ with_box self.old.nodes node ports number }
    {
        let i = usize::from(node);
        if i < BOXES {
            self.nodes[i] = Node {
                power: Power::On,
                number,
                ports: free_ports(ports),
            };
        }
    }
}
