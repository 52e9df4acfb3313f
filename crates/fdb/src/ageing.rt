// Forgetting what was not heard of for long.
ghost use Rattle.std.specs.Prelude.{◌≡◌};
ghost use Rattle.fdb.specs.Entries.{fresh};
ghost use Rattle.fdb.specs.Contents.{aged};
ghost use Rattle.fdb.specs.Held.{contents};

use crate::entry::Entry;
use crate::table::Table;

// How many ticks a station is remembered after it was last heard.
pub const LIFETIME: u64 = 300;

impl Entry {
    // Whether it is still to be remembered.
    fn is_fresh(self, tick: u64) -> bool
        ensures { result ≡ fresh tick self }
    {
        tick.saturating_sub(self.tick) < LIFETIME
    }
}

impl Table {
    // A tick has come: what was not heard of for 300 ticks is forgotten.
    pub fn forget(&mut self, tick: u64)
        ensures { contents self.new ≡ aged tick (contents self.old) }
    {
        self.entries.retain(|entry| entry.is_fresh(tick));
    }
}
