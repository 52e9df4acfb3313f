ghost use Rattle.std.specs.Prelude.{◌≡◌, ◌+◌, ◌≤◌, if◌then◌else◌, nat_le, nat_lt};
ghost use Rattle.rows.specs.Budget.{sent_of};

use super::{Budget, FRAMES_EACH_TICK};

impl Budget {
    // The start of a tick: nothing was sent.
    pub fn new() -> Budget
        ensures { sent_of result ≡ 0 }
    {
        Budget { sent: 0 }
    }

    // Whether the port has sent all that it may in this tick.
    pub fn is_spent(&self) -> bool
        ensures spent { result ≡ nat_le 64 (sent_of self.now) }
        ensures within { sent_of self.now ≤ 64 }
    {
        self.sent >= FRAMES_EACH_TICK
    }

    // Counts a frame that leaves; false, and nothing counted, if none may leave any more.
    // Stays: as `HashSet::remove` it answers whether there was one; a `Result<(), Spent>` would say no more than this bool.
    pub fn take(&mut self) -> bool
        ensures allowed { result ≡ nat_lt (sent_of self.old) 64 }
        ensures after { sent_of self.new ≡ (if result then sent_of self.old + 1 else sent_of self.old) }
    {
        if self.is_spent() {
            return false;
        }
        self.sent += 1;
        true
    }

    // A tick passed: the port may send as many again.
    pub fn refill(&mut self)
        ensures { sent_of self.new ≡ 0 }
    {
        self.sent = 0;
    }
}
