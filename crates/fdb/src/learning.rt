// Making a table, looking a station up, and learning where one is.
ghost use Rattle.std.specs.Prelude.{◌≡◌, ◌<◌, length, IfOk, None, nat_le};
ghost use Rattle.fdb.specs.Entries.{find, put, place_of};
ghost use Rattle.fdb.specs.Contents.{empty, most, learned, learnt, room_for, number_of};
ghost use Rattle.fdb.specs.Held.{held, contents};

use crate::entry::{Entry, Location};
use crate::station::Station;
use crate::table::{MOST, Table};
use std::alloc::{AllocError, Global};

impl Table {
    // Whether there is no room for one more.
    fn is_full(&self) -> bool
        ensures { result ≡ nat_le most (length (held self.now)) }
    {
        self.entries.len() >= MOST
    }

    // Puts an entry of a new station in its place; there is memory for it.
    fn insert(&mut self, entry: Entry)
        requires new { find entry.station (held self.old) ≡ None }
        requires room { length (held self.old) < 4096 }
        ensures items { held self.new ≡ put entry (held self.old) }
        ensures heard { self.new.heard ≡ self.old.heard }
    {
        let i = self.locate(entry.station).unwrap_err();
        self.entries.insert(i, entry).unwrap();
    }

    // Makes room for one more: of a full table the longest unheard of goes, but not the station that is kept.
    fn make_room(&mut self, keep: u64)
        ensures items { held self.new ≡ room_for keep (held self.old) }
        ensures room { length (held self.new) < 4096 }
        ensures heard { self.new.heard ≡ self.old.heard }
    {
        if self.is_full() {
            if let Some(oldest) = self.oldest_but(keep) {
                let i = self.locate(oldest.station).unwrap();
                self.entries.remove(i);
            }
        }
    }

    // Writes down what was heard: over what was held of the station, or as a new entry.
    fn note(&mut self, entry: Entry, keep: u64)
        ensures items { held self.new ≡ learned entry keep (held self.old) }
        ensures heard { self.new.heard ≡ self.old.heard }
    {
        match self.locate(entry.station) {
            Ok(i) => self.entries[i] = entry,
            Err(_) => {
                self.make_room(keep);
                self.insert(entry);
            }
        }
    }
}

impl Table {
    // An empty table; an error if there is not the memory for a full one.
    #[tactic(auto, unfolding(crate::specs::Entries::ascending))]
    pub fn new(heap: Global) -> Result<Self, AllocError>
        ensures { IfOk result (λ t. contents t ≡ empty) }
    {
        Ok(Table {
            entries: Vec::with_capacity(heap, MOST)?,
            heard: 0,
        })
    }

    // Forgets everything, as when the tree is given up; the memory stays.
    #[tactic(auto, unfolding(crate::specs::Entries::ascending))]
    pub fn clear(&mut self)
        ensures { contents self.new ≡ empty }
    {
        self.entries.clear();
        self.heard = 0;
    }

    // Where a station is, as far as is known. Being looked up does not keep an entry young.
    pub fn lookup(&self, station: Station) -> Option<Location>
        ensures { result ≡ place_of (held self.now) (number_of station) }
    {
        let i = self.locate(station.number()).ok()?;
        Some(self.entries[i].location)
    }

    // A station was heard at a place and a tick, in a frame for the station `keep`: a known one is refreshed, or has moved; a new one is taken in.
    pub fn learn(&mut self, station: Station, location: Location, tick: u64, keep: Station)
        ensures { contents self.new ≡ learnt station location tick keep (contents self.old) }
    {
        if station.is_group() {
            return;
        }
        let entry = Entry {
            station: station.number(),
            location,
            tick,
            order: self.heard,
        };
        self.heard = self.heard.saturating_add(1);
        self.note(entry, keep.number());
    }
}
