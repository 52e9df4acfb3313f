// A frame on its way from box to box, copy by copy.
ghost use Rattle.std.specs.Prelude.{◌≡◌, ◌≤◌, false, IfOk};
ghost use Rattle.std.specs.List.{list_any};
ghost use Rattle.std.specs.VecDeque.{deque_len};
ghost use Rattle.scenario.specs.Cables.{on_at};
ghost use Rattle.scenario.specs.Player.{Kept};
ghost use Rattle.scenario.specs.Travel.{leaves_for, counted_at, went_by};
ghost use Rattle.scenario.specs.Journey.{Arrived, FrameAt, NoStep};

use crate::cables::vlan_at;
use crate::{Losses, Player, boxes, is_on, other_end, slots};
use forwarding::{Arrival, Fault};
use ports::Vlan;
use scan::parts::PortRef;
use sets::BridgeId;
use std::alloc::{AllocError, Global};
use std::collections::VecDeque;
use trees::TreeId;
use wiring::boxes::Wiring;

/// The most copies of one frame that are played: more than any tree needs.
pub const MOST_COPIES: usize = 1000;

/// What became of a copy at a box: it went out by the ports with a flag, or was dropped.
pub type Outcome = Result<[bool; 16], Fault>;

/// A copy that came to a box.
#[derive(Clone, Copy)]
pub struct Step {
    pub node: u8,
    pub outcome: Outcome,
}

/// A copy under way: by whom it was handed on, and the port at which it comes in.
#[derive(Clone, Copy)]
pub struct Packet {
    pub by: BridgeId,
    pub at: PortRef,
}

/// What all copies of a frame carry.
#[derive(Clone, Copy)]
pub struct Frame {
    pub tree: TreeId,
    pub vlan: Vlan,
    pub from: [u8; 6],
    pub to: [u8; 6],
}

/// Where a copy that leaves by a port comes in, unless it is lost.
pub fn leave(wiring: &Wiring, losses: &mut Losses, at: PortRef) -> Option<PortRef>
    ensures value { result ≡ leaves_for wiring.now.nodes losses.old.left at }
    ensures after { losses.new.left ≡ counted_at wiring.now.nodes losses.old.left at }
{
    let end = other_end(wiring, at)?;
    (!losses.takes(at)).then_some(end)
}

/// Says whether a copy went out by a port of a box.
fn went_by(step: Step, at: PortRef) -> bool
    ensures { result ≡ went_by at step }
{
    step.node == at.node
        && at.port < 16
        && matches!(step.outcome, Ok(out) if out[usize::from(at.port)])
}

/// Says whether any copy went out by a port of a box: stations behind it can have it.
pub fn heard_at(steps: &[Step], at: PortRef) -> bool
    ensures { result ≡ list_any (went_by at) steps.now }
{
    steps.iter().any(|step| went_by(*step, at))
}

/// Hands a frame on by each port with a flag that has a cable.
fn hand_on(
    wiring: &Wiring,
    losses: &mut Losses,
    queue: &mut VecDeque<Packet>,
    node: u8,
    by: BridgeId,
    out: &[bool; 16],
) -> Result<(), AllocError>
    ensures { deque_len queue.old ≤ deque_len queue.new }
{
    for (port, went) in (0..16u8).zip(out) {
        if *went {
            if let Some(at) = leave(wiring, losses, PortRef { node, port }) {
                queue.push_back(Packet { by, at })?;
            }
        }
    }
    Ok(())
}

impl Player {
    /// A copy comes to a box: nothing becomes of it where the box is off.
    fn arrive(&mut self, wiring: &Wiring, packet: Packet, frame: Frame) -> Option<Outcome>
        ensures after { Arrived wiring.now.nodes packet frame self.old result self.new }
        ensures same { Kept self.old self.new }
    {
        let node = packet.at.node;
        if !is_on(wiring, node) {
            return None;
        }
        let arrival = Arrival {
            by: packet.by,
            to_bridge: BridgeId::new(wiring.number(node))?,
            tree: frame.tree,
            vlan: frame.vlan,
            from: frame.from,
            to: frame.to,
        };
        let clock = self.clock;
        Some(slots::from_neighbour(&mut self.bridges[usize::from(node)], arrival, clock))
    }

    /// Notes what became of a copy at a box, and hands it on.
    fn spread(
        &mut self,
        wiring: &Wiring,
        node: u8,
        outcome: Outcome,
        steps: &mut Vec<Step>,
        queue: &mut VecDeque<Packet>,
    ) -> Result<(), AllocError>
        ensures same { (self.new.clock ≡ self.old.clock) × ((self.new.forest ≡ self.old.forest) × (self.new.bridges ≡ self.old.bridges)) }
    {
        steps.push(Step { node, outcome })?;
        // Stays: nothing leaves a box whose number no bridge can have, and that is no fault that `?` could hand on.
        let Some(by) = BridgeId::new(wiring.number(node)) else {
            return Ok(());
        };
        match outcome {
            Ok(out) => hand_on(wiring, &mut self.losses, queue, node, by, &out),
            Err(_) => Ok(()),
        }
    }

    /// Plays all copies of a frame, the first that set out first.
    fn carry(
        &mut self,
        wiring: &Wiring,
        frame: Frame,
        steps: &mut Vec<Step>,
        queue: &mut VecDeque<Packet>,
    ) -> Result<(), AllocError>
        ensures same { (self.new.clock ≡ self.old.clock) × (self.new.forest ≡ self.old.forest) }
    {
        // Stays: the count bounds how many copies are played, and is no index; `while let` alone would have no bound.
        for _copy in 0..MOST_COPIES {
            let Some(packet) = queue.pop_front() else {
                return Ok(());
            };
            if let Some(outcome) = self.arrive(wiring, packet, frame) {
                self.spread(wiring, packet.at.node, outcome, steps, queue)?;
            }
        }
        Ok(())
    }

    /// The frame that a station at a port sends along the newest tree of its box, if it may go.
    fn frame_from(&self, wiring: &Wiring, at: PortRef, from: [u8; 6], to: [u8; 6]) -> Option<Frame>
        ensures { FrameAt wiring.now.nodes self.now.bridges at from to result }
    {
        let vlan = vlan_at(wiring, at)?;
        let tree = boxes::newest_in(&self.bridges, at.node)?;
        Some(Frame {
            tree,
            vlan,
            from,
            to,
        })
    }

    /// A station sends a frame by its port: what became of each copy, in the order in which they came to boxes, or why it did not set out.
    pub fn send(
        &mut self,
        heap: Global,
        wiring: &Wiring,
        at: PortRef,
        from: [u8; 6],
        to: [u8; 6],
    ) -> Result<Result<Vec<Step>, Fault>, AllocError>
        ensures off { on_at wiring.now.nodes at.node ≡ false → IfOk result NoStep }
        ensures same { (self.new.clock ≡ self.old.clock) × (self.new.forest ≡ self.old.forest) }
    {
        let mut steps = Vec::new(heap);
        let mut queue = VecDeque::new(heap);
        if !is_on(wiring, at.node) {
            return Ok(Ok(steps));
        }
        let frame = self.frame_from(wiring, at, from, to);
        let clock = self.clock;
        let slot = &mut self.bridges[usize::from(at.node)];
        let outcome = slots::from_station(slot, at.port, from, to, clock);
        // Stays: a fault lies within the Ok of the public result; for `?` callers would get another type, one error of faults and memory.
        if let Err(fault) = outcome {
            return Ok(Err(fault));
        }
        self.spread(wiring, at.node, outcome, &mut steps, &mut queue)?;
        if let Some(frame) = frame {
            self.carry(wiring, frame, &mut steps, &mut queue)?;
        }
        Ok(Ok(steps))
    }
}
