// The player of a script: the bridges in the boxes, the trees that were announced, and the clock.
ghost use Rattle.std.specs.Prelude.{◌≡◌, ℕ, ◌+◌, ◌-◌, ◌^◌, ◌<◌, min, max, length, IfOk, OnOk, OnErr, if◌then◌else◌, None, ◌≢◌, nat_lt, slice_index_or, slice_set, find, reverse};
ghost use Rattle.forwarding.specs.State.{aged_state, crashed};
ghost use Rattle.scenario.specs.Boxes.{PreparedBelow, PartlyPrepared};
ghost use Rattle.scenario.specs.Forest.{Announced};
ghost use Rattle.scenario.specs.Losses.{left_at, with_left};
ghost use Rattle.scenario.specs.Slots.{state_in, become};
ghost use Rattle.scenario.specs.Player.{trees_of, Fresh, Kept, is_at_rest, AdoptedAt};

use crate::{Forest, Losses, Refusal, boxes, is_on, rests_along, slots};
use forwarding::Bridge;
use scan::parts::PortRef;
use std::alloc::{AllocError, Global};
use trees::Tree;
use wiring::boxes::Wiring;

/// What a net is at a moment, but for its wiring.
#[derive(Drop)]
pub struct Player {
    // By box.
    pub(crate) bridges: [Option<Bridge>; 6],
    pub(crate) losses: Losses,
    pub(crate) clock: u64,
    pub(crate) forest: Forest,
}

/// Says whether all boxes that are on have a tree as their newest, and hang together along it.
fn rests(bridges: &[Option<Bridge>], wiring: &Wiring, tree: &Tree) -> bool
    ensures { result ≡ is_at_rest bridges.now wiring.now.nodes tree.now }
{
    boxes::all_hold(bridges, wiring, tree.id()) && rests_along(wiring, tree)
}

impl Player {
    /// Six boxes without bridges, no tree, and nothing to be lost.
    pub fn new(heap: Global) -> Result<Player, AllocError>
        ensures { IfOk result (λ p. Fresh p) }
    {
        Ok(Player {
            bridges: [None, None, None, None, None, None],
            losses: Losses::none(),
            clock: 0,
            forest: Forest::new(heap)?,
        })
    }

    /// Sees that each box that is on has a bridge, and tells each of its links: before anything is played.
    pub fn prepare(&mut self, heap: Global, wiring: &Wiring) -> Result<(), AllocError>
        ensures ok { OnOk result (PreparedBelow wiring.now.nodes 6 self.old.bridges self.new.bridges) }
        ensures err { OnErr result (PartlyPrepared wiring.now.nodes self.old.bridges self.new.bridges) }
        ensures same { (self.new.losses ≡ self.old.losses) × ((self.new.clock ≡ self.old.clock) × (self.new.forest ≡ self.old.forest)) }
    {
        boxes::prepare_all(&mut self.bridges, heap, wiring)
    }

    /// The next packets that leave by a port are lost.
    pub fn lose(&mut self, at: PortRef, packets: u32)
        ensures after { self.new.losses.left ≡ with_left self.old.losses.left at (max (left_at self.old.losses.left at) packets) }
        ensures same { (self.new.bridges ≡ self.old.bridges) × ((self.new.clock ≡ self.old.clock) × (self.new.forest ≡ self.old.forest)) }
    {
        self.losses.lose(at, packets);
    }

    /// The bridge of a box goes: it is made anew, with the settings of its ports, when it is needed.
    pub fn renew(&mut self, node: u8)
        ensures after { self.new.bridges ≡ (if nat_lt node 6 then slice_set self.old.bridges node None else self.old.bridges) }
        ensures same { Kept self.old self.new }
    {
        // Stays: with `get_mut` a proof knows the array's length and no element; below too.
        if node < 6 {
            self.bridges[usize::from(node)] = None;
        }
    }

    /// The bridge of a box falls.
    pub fn fall(&mut self, node: u8)
        ensures length { length self.new.bridges ≡ length self.old.bridges }
        ensures here { node < 6 → state_in (slice_index_or self.new.bridges node None) ≡ become crashed (state_in (slice_index_or self.old.bridges node None)) }
        ensures others { (n : ℕ) → (n ≢ node) → slice_index_or self.new.bridges n None ≡ slice_index_or self.old.bridges n None }
        ensures same { Kept self.old self.new }
    {
        if node < 6 {
            slots::crash(&mut self.bridges[usize::from(node)]);
        }
    }

    /// Ticks pass, and then each bridge forgets what is old.
    pub fn tick(&mut self, ticks: u32)
        ensures length { length self.new.bridges ≡ length self.old.bridges }
        ensures clock { self.new.clock ≡ min (self.old.clock + ticks) (2 ^ 64 - 1) }
        ensures aged { (n : ℕ) → n < 6 → state_in (slice_index_or self.new.bridges n None) ≡ become (aged_state self.new.clock) (state_in (slice_index_or self.old.bridges n None)) }
        ensures same { (self.new.losses ≡ self.old.losses) × (self.new.forest ≡ self.old.forest) }
    {
        self.clock = self.clock.saturating_add(u64::from(ticks));
        let clock = self.clock;
        boxes::age_all(&mut self.bridges, clock);
    }

    /// A box announces a tree.
    pub fn announce(
        &mut self,
        wiring: &Wiring,
        seq: u32,
        node: u8,
        parents: &[u8; 6],
    ) -> Result<Tree, Refusal>
        ensures trees { Announced wiring.now.nodes seq node parents.now (trees_of self.old) result (trees_of self.new) }
        ensures same { (self.new.losses ≡ self.old.losses) × ((self.new.clock ≡ self.old.clock) × (self.new.bridges ≡ self.old.bridges)) }
    {
        self.forest.announce(wiring, seq, node, parents)
    }

    /// A box adopts the latest tree that was announced with a sequence number.
    pub fn adopt(&mut self, wiring: &Wiring, node: u8, seq: u32) -> Result<(), Refusal>
        ensures length { length self.new.bridges ≡ length self.old.bridges }
        ensures after { AdoptedAt wiring.now.nodes node seq self.old result self.new }
        ensures same { Kept self.old self.new }
    {
        if !is_on(wiring, node) {
            return Err(Refusal::NoBridge);
        }
        let tree = self.forest.find(seq).ok_or(Refusal::UnknownTree)?;
        slots::adopt(&mut self.bridges[usize::from(node)], tree);
        Ok(())
    }

    /// The latest tree that all boxes that are on have as their newest, and along which they hang together: then the net rests.
    pub fn rest(&self, wiring: &Wiring) -> Option<Tree>
        ensures { result ≡ find (is_at_rest self.now.bridges wiring.now.nodes) (reverse (trees_of self.now)) }
    {
        let trees = self.forest.trees();
        trees
            .iter()
            .rev()
            .find(|&tree| rests(&self.bridges, wiring, tree))
            .copied()
    }
}
