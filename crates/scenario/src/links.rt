// The links of a box: what each of its ports is to the bridge in it.
ghost use Rattle.std.specs.Prelude.{◌≡◌, ℕ, ◌<◌, None, slice_index_or};
ghost use Rattle.ports.specs.Ports.{ports_of};
ghost use Rattle.forwarding.specs.Holding.{state_of};
ghost use Rattle.scenario.specs.Cables.{start_kind, link_kind, link_is};
ghost use Rattle.scenario.specs.Links.{at_port, relinked_all};
ghost use Rattle.scenario.specs.Slots.{state_in, become};

use crate::slots::update;
use crate::{link_at, port_at_start};
use forwarding::Bridge;
use ports::{Link, Port};
use scan::parts::PortRef;
use std::array;
use wiring::boxes::Wiring;

/// What a function says of each port of a box.
fn at_ports<T, F: Fn(PortRef) -> T>(node: u8, of: F) -> [T; 16]
    requires { F.IsAlwaysCallable of }
    ensures { (p : ℕ) (d : T) → p < 16 → F.post of (at_port node p) (slice_index_or result p d) }
{
    array::from_fn(|port| {
        let port = port as u8;
        of(PortRef { node, port })
    })
}

/// The ports of a bridge that starts in a box.
pub fn start_ports(wiring: &Wiring, node: u8) -> [Port; 16]
    ensures { (p : ℕ) → p < 16 → ports_of result p ≡ start_kind wiring.now.nodes (at_port node p) }
{
    at_ports(node, |at| port_at_start(wiring, at))
}

/// The links by the ports of a box.
pub fn links_of(wiring: &Wiring, node: u8) -> [Option<Link>; 16]
    ensures { (p : ℕ) → p < 16 → link_is (slice_index_or result p None) ≡ link_kind wiring.now.nodes (at_port node p) }
{
    at_ports(node, |at| link_at(wiring, at))
}

/// Tells a bridge of all its links; its access ports stay as they are.
pub fn relink(bridge: Bridge, links: &[Option<Link>; 16]) -> Bridge
    ensures { state_of result ≡ relinked_all 16 links.now (state_of bridge) }
{
    // Stays: with `fold` the clause stays open; it wants an induction over the calls, which the loop's invariant spares.
    let mut told = bridge;
    for (port, link) in links.iter().enumerate() {
        let (next, _) = told.set_link(port as u8, *link);
        told = next;
    }
    told
}

/// Tells the bridge in a box of all its links.
pub(crate) fn relink_slot(slot: &mut Option<Bridge>, links: &[Option<Link>; 16])
    ensures { state_in slot.new ≡ become (relinked_all 16 links.now) (state_in slot.old) }
{
    update(slot, |bridge| relink(bridge, links));
}
