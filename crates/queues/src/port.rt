// What waits at one port.
ghost use Rattle.std.specs.Prelude.{◌≡◌, ◌≤◌, length, is_some, IfSome, IfOk};
ghost use Rattle.std.specs.Option.{option_map};
ghost use Rattle.pending.specs.Waits.{message_of};
ghost use Rattle.queues.specs.Port.{port_of, idle, message_in, frame_in, out_of, after_out, refilled, emptied};

use pending::{Control, Pending};
use rows::budget::Budget;
use rows::row::Row;
use std::alloc::{AllocError, Global};

// The messages and frames that wait, and how many frames left in this tick.
#[derive(Drop)]
pub(crate) struct PortQueue {
    pub(crate) pending: Pending,
    pub(crate) row: Row,
    pub(crate) budget: Budget,
}

impl PortQueue {
    // Nothing waits, and nothing was sent.
    pub(crate) fn new(heap: Global) -> Result<PortQueue, AllocError>
        ensures { IfOk result (λ q. port_of q ≡ idle) }
    {
        let row = Row::new(heap)?;
        Ok(PortQueue {
            pending: Pending::new(),
            row,
            budget: Budget::new(),
        })
    }

    // The message that leaves next.
    pub(crate) fn next_message(&self) -> Option<Control>
        ensures { option_map message_of result ≡ message_in (out_of (port_of self.now)) }
    {
        self.pending.peek()
    }

    // The frame that leaves next: none while a message waits, or once the port has sent all that it may in this tick.
    #[tactic(auto, using(crate::proofs::Bounds::small_ports))]
    pub(crate) fn next_frame(&self) -> Option<&[u8]>
        ensures next { option_map (λ x. x.now) result ≡ frame_in (out_of (port_of self.now)) }
        ensures within { IfSome result (λ f. length f.now ≤ 1529) }
        ensures held { (length (port_of self.now).frames ≤ 16) × ((port_of self.now).sent ≤ 64) }
    {
        if self.pending.peek().is_some() || self.budget.is_spent() {
            return None;
        }
        self.row.front()
    }

    // What was to leave next has left; false if there was nothing.
    // Stays: an `Option` of what has left would copy the frame, which the caller read in place before.
    pub(crate) fn sent(&mut self) -> bool
        ensures some { result ≡ is_some (out_of (port_of self.old)) }
        ensures after { port_of self.new ≡ after_out (port_of self.old) }
    {
        if self.pending.next().is_some() {
            return true;
        }
        if self.budget.is_spent() || !self.row.pop() {
            return false;
        }
        self.budget.take()
    }

    // A hold-down: frames are dropped, and messages go on.
    pub(crate) fn clear(&mut self)
        ensures { port_of self.new ≡ emptied (port_of self.old) }
    {
        self.row.clear();
    }

    // A tick passed: as many frames may leave again.
    pub(crate) fn tick(&mut self)
        ensures { port_of self.new ≡ refilled (port_of self.old) }
    {
        self.budget.refill();
    }
}
