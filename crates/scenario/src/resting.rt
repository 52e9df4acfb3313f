// Whether the boxes that are on hang together along a tree.
ghost use Rattle.std.specs.Prelude.{◌≡◌};
ghost use Rattle.trees.specs.Meanings.{meaning};
ghost use Rattle.ports.specs.Ports.{leads_to};
ghost use Rattle.scenario.specs.Cables.{link_kind};
ghost use Rattle.scenario.specs.Resting.{linked, above_in, hangs, is_top, all_hang, tops, rests_along};

use crate::{is_on, link_at};
use scan::parts::PortRef;
use sets::BridgeId;
use trees::Tree;
use wiring::boxes::Wiring;

/// Says whether a port leads to a bridge by a link that is up.
fn leads_up(wiring: &Wiring, at: PortRef, number: u8) -> bool
    ensures { result ≡ leads_to (link_kind wiring.now.nodes at) number }
{
    // Stays: `number` is a box's, and a box may have one that no bridge can have.
    link_at(wiring, at).is_some_and(|link| link.up && link.neighbour.value() == number)
}

/// Says whether any port of a box leads to a bridge by a link that is up.
fn is_linked(wiring: &Wiring, node: u8, number: u8) -> bool
    ensures { result ≡ linked 16 wiring.now.nodes node number }
{
    (0..16u8).any(|port| leads_up(wiring, PortRef { node, port }, number))
}

/// A net as it is wired, and a tree along which it may hang together.
#[derive(Clone, Copy)]
struct Hanging<'a> {
    wiring: &'a Wiring,
    tree: &'a Tree,
}

impl Hanging<'_> {
    /// The number of the bridge above the one in a box, in the tree.
    fn above_in(&self, node: u8) -> u8
        ensures { result ≡ above_in self.now.wiring.now.nodes (meaning self.now.tree.now) node }
    {
        let Hanging { wiring, tree } = *self;
        let number = wiring.number(node);
        BridgeId::new(number).map_or(number, |bridge| tree.parent_of(bridge).value())
    }

    /// Says whether a box is off, at a top, or linked to the bridge above it.
    fn hangs_on(&self, node: u8) -> bool
        ensures { result ≡ hangs self.now.wiring.now.nodes (meaning self.now.tree.now) node }
    {
        let above = self.above_in(node);
        !is_on(self.wiring, node)
            || above == self.wiring.number(node)
            || is_linked(self.wiring, node, above)
    }

    /// Says whether a box is on and at a top.
    fn is_top(&self, node: u8) -> bool
        ensures { result ≡ is_top self.now.wiring.now.nodes (meaning self.now.tree.now) node }
    {
        is_on(self.wiring, node) && self.above_in(node) == self.wiring.number(node)
    }

    /// Says whether every box that is on is at a top or linked to the bridge above it.
    fn all_hang(&self) -> bool
        ensures { result ≡ all_hang 6 self.now.wiring.now.nodes (meaning self.now.tree.now) }
    {
        (0..6u8).all(|node| self.hangs_on(node))
    }

    /// How many boxes that are on are at a top.
    fn count_tops(&self) -> usize
        ensures { result ≡ tops 6 self.now.wiring.now.nodes (meaning self.now.tree.now) }
    {
        (0..6u8).filter(|node| self.is_top(*node)).count()
    }
}

/// Says whether the boxes that are on hang together along a tree, by links that are up.
pub fn rests_along(wiring: &Wiring, tree: &Tree) -> bool
    ensures { result ≡ rests_along wiring.now.nodes (meaning tree.now) }
{
    let net = Hanging { wiring, tree };
    net.all_hang() && net.count_tops() == 1
}
