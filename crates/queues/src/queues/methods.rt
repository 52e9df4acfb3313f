ghost use Rattle.std.specs.Prelude.{◌≡◌, ◌<◌, ◌≤◌, true, false, ◌&&◌, [], map, length, replicate, is_some, is_ok, IfSome, IfOk, IfErr, if◌then◌else◌, MatchOption, nat_le, nat_lt};
ghost use Rattle.std.specs.Borrow.{sem, follows_so};
ghost use Rattle.std.specs.Option.{ghost_name_of as name_of, option_map};
ghost use Rattle.rows.specs.Refused.{why};
ghost use Rattle.rows.specs.Slot.{frame};
ghost use Rattle.rows.specs.contracts.slot.Slot.{the_row as slot_row};
ghost use Rattle.pending.specs.Waits.{waits, message_of};
ghost use Rattle.pending.specs.contracts.messages.Pending.{the_row as pending_row};
ghost use Rattle.queues.specs.Port.{port_of, idle, message_in, frame_in, after_out, with_frame, with_control, refilled, emptied};
ghost use Rattle.queues.specs.Ports.{ports_of, changed, port_at, room_at, out_at};
ghost use Rattle.queues.specs.contracts.queues.Queues.{the_row};

use super::{PORTS, Queues};
use crate::{PortQueue, Refused};
use pending::{Control, Pending};
use rows::slot::Slot;
use std::alloc::{AllocError, Global};

impl Queues {
    // Nothing waits at any port.
    pub fn new(heap: Global) -> Result<Queues, AllocError>
        ensures { IfOk result (λ q. ports_of q ≡ replicate 16 idle) }
    {
        let mut ports = Vec::new(heap);
        ports.try_resize_with(PORTS, || PortQueue::new(heap))?;
        Ok(Queues { ports })
    }

    // Lends the place of the next frame of a port, empty, and counts it as waiting there: what is written to it leaves
    // after all that wait there now. `None`, and nothing changed, if the port is not there or has no room.
    pub fn place(&mut self, port: usize) -> Option<&mut Slot>
        ensures* lent { sem 𝓛 (follows_so the_row slot_row self.entry.ghost_name (name_of result) (λ w n. (is_some result ≡ true → ports_of n ≡ changed port (with_frame (frame w)) (ports_of self.old))) (λ n. (is_some result ≡ false → ports_of n ≡ ports_of self.old))) }
        ensures lent_facts { (is_some result ≡ room_at port (ports_of self.old)) × IfSome result (λ x. frame x.now ≡ []) }
    {
        // Stays: a lent place; a `&mut` out of `get_mut(port)?` is not followed back to `self`, so `returns` gets no proof.
        if port >= PORTS {
            return None;
        }
        self.ports[port].row.push()
    }

    // Puts a frame behind those that wait at a port. An error if it is too long, or the port is not there or has no room; then
    // nothing changed.
    pub fn enqueue(&mut self, port: usize, bytes: &[u8]) -> Result<(), Refused>
        ensures taken { is_ok result ≡ (nat_le (length bytes.now) 1529 && room_at port (ports_of self.old)) }
        ensures why { IfErr result (λ e. e ≡ (if nat_lt port 16 then Refused.ByRow (why bytes.now) else Refused.NoPort)) }
        ensures after { ports_of self.new ≡ (if is_ok result then changed port (with_frame bytes.now) (ports_of self.old) else ports_of self.old) }
    {
        let queue = self.ports.get_mut(port).ok_or(Refused::NoPort)?;
        queue.row.enqueue(bytes)?;
        Ok(())
    }

    // Lends the messages that wait at a port, for more to be added; `None` if the port is not there.
    pub fn pending(&mut self, port: usize) -> Option<&mut Pending>
        ensures* lent { sem 𝓛 (follows_so the_row pending_row self.entry.ghost_name (name_of result) (λ w n. (is_some result ≡ true → ports_of n ≡ changed port (with_control (waits w)) (ports_of self.old))) (λ n. (is_some result ≡ false → ports_of n ≡ ports_of self.old))) }
        ensures lent_facts { (is_some result ≡ nat_lt port 16) × IfSome result (λ x. waits x.now ≡ (port_at port (ports_of self.old)).control) }
    {
        // Stays: a lent part; a `&mut` out of `get_mut(port)?` is not followed back to `self`, so `returns` gets no proof.
        if port >= PORTS {
            return None;
        }
        Some(&mut self.ports[port].pending)
    }

    // What waits at a port, if it is there.
    fn queue(&self, port: usize) -> Option<&PortQueue>
        ensures { MatchOption result (16 ≤ port) (λ q. (port < 16) × (port_of q.now ≡ port_at port (ports_of self.now))) }
    {
        self.ports.get(port)
    }

    // The message that leaves next by a port.
    pub fn next_message(&self, port: usize) -> Option<Control>
        ensures { option_map message_of result ≡ message_in (out_at port (ports_of self.now)) }
    {
        self.queue(port)?.next_message()
    }

    // The frame that leaves next by a port: none while a message waits there, or once it has sent 64 in this tick.
    pub fn next_frame(&self, port: usize) -> Option<&[u8]>
        ensures next { option_map (λ x. x.now) result ≡ frame_in (out_at port (ports_of self.now)) }
        ensures within { IfSome result (λ f. length f.now ≤ 1529) }
        ensures held { port < 16 → (length (port_at port (ports_of self.now)).frames ≤ 16) × ((port_at port (ports_of self.now)).sent ≤ 64) }
    {
        self.queue(port)?.next_frame()
    }

    // What was to leave next by a port has left; false if there was nothing.
    // Stays: an `Option` of what has left would copy the frame, which the caller read in place before.
    pub fn sent(&mut self, port: usize) -> bool
        ensures some { result ≡ is_some (out_at port (ports_of self.old)) }
        ensures after { ports_of self.new ≡ changed port after_out (ports_of self.old) }
    {
        // Stays: of `is_some_and(|queue| queue.sent())` no clause says what the closure leaves in the queue: `after` stays open.
        match self.ports.get_mut(port) {
            Some(queue) => queue.sent(),
            None => false,
        }
    }

    // A hold-down of one port: its frames are dropped, and messages go on.
    pub fn clear(&mut self, port: usize)
        ensures { ports_of self.new ≡ changed port emptied (ports_of self.old) }
    {
        if let Some(queue) = self.ports.get_mut(port) {
            queue.clear();
        }
    }

    // A hold-down of the whole bridge.
    pub fn clear_all(&mut self)
        ensures { ports_of self.new ≡ map emptied (ports_of self.old) }
    {
        for queue in self.ports.iter_mut() {
            queue.clear();
        }
    }

    // A tick passed: each port may send 64 frames again.
    pub fn tick(&mut self)
        ensures { ports_of self.new ≡ map refilled (ports_of self.old) }
    {
        for port in self.ports.iter_mut() {
            port.tick();
        }
    }
}
