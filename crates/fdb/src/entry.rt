// What the table holds of a station.

// Where a station is: behind a port of this bridge, or behind a neighbouring bridge.
#[derive(Clone, Copy, PartialEq, Eq, Debug)]
pub enum Location {
    Here(u8),
    Behind(u8),
}

// What was last heard of a station: from where, at which tick, and as the how manieth of all that was heard, which tells apart what was heard in one tick.
#[derive(Clone, Copy)]
pub struct Entry {
    pub station: u64,
    pub location: Location,
    pub tick: u64,
    pub order: u64,
}
