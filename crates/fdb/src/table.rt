// The table in memory.
ghost use Rattle.std.specs.Prelude.{◌≡◌, ◌≤◌, true, vec_len, vec_capacity};
ghost use Rattle.fdb.specs.Entries.{ascending};

use crate::entry::Entry;

// The most stations that are held for one tree.
pub const MOST: usize = 4096;

// The forwarding database of one tree. Its memory is reserved when it is made, so that a frame never waits for memory.
#[derive(Drop)]
pub struct Table {
    // Stays: a sorted Vec, since a `BTreeMap` would allocate for a frame; this one's memory is reserved once.
    pub(crate) entries: Vec<Entry>,
    pub(crate) heard: u64,
    ghost room: { (vec_len entries ≤ 4096) × (4096 ≤ vec_capacity entries) },
    ghost sorted: { ascending entries.items ≡ true },
}
