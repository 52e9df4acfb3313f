// By which ports a frame goes out.
ghost use Rattle.std.specs.Prelude.{◌≡◌, ℕ, ◌<◌, false, ◌&&◌, ◌||◌, ◌==◌, slice_index_or};
ghost use Rattle.sets.specs.Sets.{has};
ghost use Rattle.trees.specs.Meanings.{meaning};
ghost use Rattle.ports.specs.Flags.{Flags};
ghost use Rattle.ports.specs.Ports.{kind_of, ports_of};
ghost use Rattle.ports.specs.Places.{place_of, came_of, not_by_port};
ghost use Rattle.ports.specs.Outward.{serves, to_stations, may_go_to, out_by};

use crate::{Chassis, Inbound, Ingress, Port, Vlan, port_at, ports_to};
use fdb::Location;
use sets::{BridgeId, BridgeSet};
use std::array;
use trees::Tree;

// May the port have frames of the VLAN? The one place in which that is decided.
pub fn is_served(port: Port, vlan: Vlan) -> bool
    ensures { result ≡ serves (kind_of port) vlan.value }
{
    port == Port::Access(vlan)
}

// Is it another port than that by which the frame came?
fn is_another_port(ingress: Ingress, port: usize) -> bool
    ensures { result ≡ not_by_port (came_of ingress) port }
{
    match ingress {
        Ingress::Station(from) => from.index() != port,
        Ingress::Neighbour(_) => true,
    }
}

// The access ports by which a frame of a VLAN goes to stations.
fn to_stations(ports: &[Port; 16], frame: Inbound) -> [bool; 16]
    ensures { Flags result (to_stations (ports_of ports.now) frame.vlan.value (came_of frame.ingress)) }
{
    // Stays: `ports[i]` would ask for an i below 16, which the closure would have to require in a clause of its own.
    array::from_fn(|i| is_served(port_at(ports, i), frame.vlan)
        && is_another_port(frame.ingress, i))
}

// The neighbours to whom a frame may go on: joined in the tree, but whence it came.
fn next_bridges(me: BridgeId, tree: &Tree, ingress: Ingress) -> BridgeSet
    ensures { (k : ℕ) → k < 128 → has result.bits k ≡ may_go_to me.value (meaning tree.now) (came_of ingress) k }
{
    let joined = tree.neighbours(me);
    match ingress {
        Ingress::Station(_) => joined,
        Ingress::Neighbour(from) => joined.without(from),
    }
}

// All ports of two choices.
fn either(a: &[bool; 16], b: &[bool; 16]) -> [bool; 16]
    ensures { Flags result (λ p. slice_index_or a.now p false || slice_index_or b.now p false) }
{
    array::from_fn(|i| a[i] || b[i])
}

// One port alone of a choice.
fn only(a: &[bool; 16], port: u8) -> [bool; 16]
    ensures { Flags result (λ p. port == p && slice_index_or a.now p false) }
{
    array::from_fn(|i| usize::from(port) == i && a[i])
}

// One neighbour alone of some.
fn only_bridge(bridges: BridgeSet, bridge: u8) -> BridgeSet
    ensures { (k : ℕ) → k < 128 → has result.bits k ≡ (bridge == k && has bridges.bits k) }
{
    BridgeId::new(bridge).map_or(BridgeSet::empty(), |one| {
        bridges.intersection(BridgeSet::only(one))
    })
}

// The ports by which a frame of a VLAN that came to a bridge along a tree goes out, to a station that is at a location.
pub fn egress_ports(
    chassis: &Chassis,
    tree: &Tree,
    frame: Inbound,
    location: Option<Location>,
) -> [bool; 16]
    ensures { Flags result (out_by (ports_of chassis.now.ports) chassis.now.id.value (meaning tree.now) frame.vlan.value (came_of frame.ingress) (place_of location)) }
{
    let ports = &chassis.ports;
    match location {
        None => {
            let stations = to_stations(ports, frame);
            let bridges = ports_to(ports, next_bridges(chassis.id, tree, frame.ingress));
            either(&stations, &bridges)
        }
        Some(Location::Here(port)) => only(&to_stations(ports, frame), port),
        Some(Location::Behind(bridge)) => {
            let next = next_bridges(chassis.id, tree, frame.ingress);
            ports_to(ports, only_bridge(next, bridge))
        }
    }
}
