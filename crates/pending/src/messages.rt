// What waits to be sent by one port, and in which order it leaves.
ghost use Rattle.std.specs.Prelude.{◌≡◌, true, false};
ghost use Rattle.std.specs.Option.{option_map};
ghost use Rattle.pending.specs.Waits.{nothing, waits, message_of, next_of, after_next, without, with_hello, with_link_state, with_link_states, with_tree, with_trees, with_link_ack, with_tree_ack};

use crate::{Acks, Control, Version};
use sets::{BridgeId, BridgeSet};

// The messages that wait at a port: a hello, acknowledgements, link states and trees, of each bridge one at most.
#[derive(Clone, Copy)]
pub struct Pending {
    hello: bool,
    link_acks: Acks<Version>,
    tree_acks: Acks<u64>,
    link_states: BridgeSet,
    trees: BridgeSet,
}

impl Pending {
    // Nothing to send.
    pub fn new() -> Pending
        ensures { waits result ≡ nothing }
    {
        Pending {
            hello: false,
            link_acks: Acks::new(),
            tree_acks: Acks::new(),
            link_states: BridgeSet::empty(),
            trees: BridgeSet::empty(),
        }
    }

    // A hello is to be sent.
    pub fn add_hello(&mut self)
        ensures { waits self.new ≡ with_hello (waits self.old) }
    {
        self.hello = true;
    }

    // The link state of this bridge is to be sent.
    pub fn add_link_state(&mut self, bridge: BridgeId)
        ensures { waits self.new ≡ with_link_state bridge.value (waits self.old) }
    {
        self.link_states = self.link_states.with(bridge);
    }

    // The link states of these bridges are to be sent.
    // Stays: two names, for one bridge and for several; a `&[BridgeId]` for both would be gone through in a loop.
    pub fn add_link_states(&mut self, bridges: BridgeSet)
        ensures { waits self.new ≡ with_link_states bridges.bits (waits self.old) }
    {
        self.link_states = bridges.union(self.link_states);
    }

    // The tree of this announcer is to be sent.
    pub fn add_tree(&mut self, announcer: BridgeId)
        ensures { waits self.new ≡ with_tree announcer.value (waits self.old) }
    {
        self.trees = self.trees.with(announcer);
    }

    // The trees of these announcers are to be sent.
    pub fn add_trees(&mut self, announcers: BridgeSet)
        ensures { waits self.new ≡ with_trees announcers.bits (waits self.old) }
    {
        self.trees = announcers.union(self.trees);
    }

    // A link state is to be acknowledged, unless one as new of the same bridge already is.
    pub fn add_link_ack(&mut self, bridge: BridgeId, version: Version)
        ensures { waits self.new ≡ with_link_ack bridge.value version (waits self.old) }
    {
        self.link_acks.add(bridge, version);
    }

    // A tree is to be acknowledged, unless one as new of the same announcer already is.
    pub fn add_tree_ack(&mut self, announcer: BridgeId, number: u64)
        ensures { waits self.new ≡ with_tree_ack announcer.value number (waits self.old) }
    {
        self.tree_acks.add(announcer, number);
    }

    // The message that leaves next: a hello first, then acknowledgements, link states and trees, the lowest bridge first.
    pub fn peek(&self) -> Option<Control>
        ensures { option_map message_of result ≡ next_of (waits self.now) }
    {
        // Stays: of `.map(Control::AckLinkState).or_else(|| ..)` no fact says what a closure that reads `self` gives: `returns`
        // stays open.
        if self.hello {
            return Some(Control::Hello);
        }
        if let Some(ack) = self.link_acks.first() {
            return Some(Control::AckLinkState(ack));
        }
        if let Some(ack) = self.tree_acks.first() {
            return Some(Control::AckTree(ack));
        }
        if let Some(bridge) = self.link_states.first() {
            return Some(Control::LinkState(bridge));
        }
        self.trees.first().map(Control::Tree)
    }

    // This message no longer waits.
    pub fn remove(&mut self, message: Control)
        ensures { waits self.new ≡ without (message_of message) (waits self.old) }
    {
        match message {
            Control::Hello => self.hello = false,
            Control::AckLinkState(ack) => self.link_acks.remove(ack.bridge),
            Control::AckTree(ack) => self.tree_acks.remove(ack.bridge),
            Control::LinkState(bridge) => self.link_states = self.link_states.without(bridge),
            Control::Tree(announcer) => self.trees = self.trees.without(announcer),
        }
    }

    // Takes out the message that leaves next.
    pub fn next(&mut self) -> Option<Control>
        ensures given { option_map message_of result ≡ next_of (waits self.old) }
        ensures after { waits self.new ≡ after_next (waits self.old) }
    {
        let message = self.peek()?;
        self.remove(message);
        Some(message)
    }
}
