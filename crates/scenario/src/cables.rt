// What the cables of a net are to the bridges in its boxes.
ghost use Rattle.std.specs.Prelude.{◌≡◌, MatchOption};
ghost use Rattle.std.specs.Option.{option_map};
ghost use Rattle.ports.specs.Ports.{kind_of, Idle};
ghost use Rattle.wiring.specs.Boxes.{port_at};
ghost use Rattle.wiring.specs.declared.boxes.Port.TheVariants.{Access};
ghost use Rattle.scenario.specs.Cables.{on_at, far_end, start_kind, link_kind, link_is};

use ports::{Link, Port, Vlan};
use scan::parts::PortRef;
use sets::BridgeId;
use wiring::boxes::{Port as Socket, Power, Wiring};

/// Says whether a box is there and switched on: else it loses what comes.
pub fn is_on(wiring: &Wiring, node: u8) -> bool
    ensures { result ≡ on_at wiring.now.nodes node }
{
    wiring.power(node) == Power::On
}

/// The port at the other end of the cable in a port: where what leaves by it comes.
pub fn other_end(wiring: &Wiring, at: PortRef) -> Option<PortRef>
    ensures { result ≡ far_end wiring.now.nodes at }
{
    match wiring.port(at) {
        Socket::Cabled(other) => Some(other),
        Socket::Absent | Socket::Free | Socket::Access(_) => None,
    }
}

/// The VLAN of the stations behind an access port.
pub(crate) fn vlan_at(wiring: &Wiring, at: PortRef) -> Option<Vlan>
    ensures { MatchOption result (start_kind wiring.now.nodes at ≡ Idle) (λ v. port_at wiring.now.nodes at ≡ Access v.value) }
{
    match wiring.port(at) {
        Socket::Access(vlan) => Vlan::new(vlan),
        Socket::Absent | Socket::Free | Socket::Cabled(_) => None,
    }
}

/// What a port is to a bridge that starts: an access port by its settings, and nothing else yet.
pub fn port_at_start(wiring: &Wiring, at: PortRef) -> Port
    ensures { kind_of result ≡ start_kind wiring.now.nodes at }
{
    vlan_at(wiring, at).map_or(Port::Unused, Port::Access)
}

/// The link by a port: to the bridge at the other end of its cable, and up while both boxes are on.
pub fn link_at(wiring: &Wiring, at: PortRef) -> Option<Link>
    ensures { link_is result ≡ link_kind wiring.now.nodes at }
{
    let other = other_end(wiring, at)?;
    let neighbour = BridgeId::new(wiring.number(other.node))?;
    let up = is_on(wiring, at.node) && is_on(wiring, other.node);
    Some(Link { neighbour, up })
}
