// Finding an entry in a table: by its station, or the oldest.
ghost use Rattle.std.specs.Prelude.{◌≡◌, MatchResult};
ghost use Rattle.fdb.specs.Entries.{oldest};
ghost use Rattle.fdb.specs.Search.{StandsAt, BelongsAt};
ghost use Rattle.fdb.specs.Held.{held};

use crate::entry::Entry;
use crate::table::Table;

impl Table {
    // The index of a station's entry, or where one would be put.
    pub(crate) fn locate(&self, station: u64) -> Result<usize, usize>
        ensures { MatchResult result (StandsAt station (held self.now)) (BelongsAt station (held self.now)) }
    {
        self.entries
            .binary_search_by_key(&station, |entry| entry.station)
    }

    // The longest unheard of, of all stations but one.
    pub(crate) fn oldest_but(&self, keep: u64) -> Option<Entry>
        ensures { result ≡ oldest keep (held self.now) }
    {
        self.entries
            .iter()
            .copied()
            .filter(|entry| entry.station != keep)
            .min_by_key(|entry| (entry.tick, entry.order, entry.station))
    }
}
