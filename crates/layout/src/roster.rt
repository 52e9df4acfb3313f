// Up to 32 stations.
ghost use Rattle.std.specs.Prelude.{◌≡◌, ◌<◌, ◌≤◌, true, false, [], IfOk, vec_len, vec_capacity, MatchOption};
ghost use Rattle.wiring.specs.Rules.{Did};
ghost use Rattle.layout.specs.Stations.{placed_in, station_added, station_moved, has_name, has_address, name_index, want_station};

use crate::names::Name;
use crate::stations::Station;
use scan::parts::PortRef;
use script::faults::Expected;
use std::alloc::{AllocError, Global};
use wiring::boxes::Wiring;
use wiring::rules::want_access;

/// How many stations there can be.
const MOST: usize = 32;

/// The stations of a net, each with a name and an address of its own.
#[derive(Drop)]
pub struct Roster {
    // Stays: at most 32 in the order in which they came, which a map would lose.
    list: Vec<Station>,
    ghost room: { (vec_len list ≤ 32) × (32 ≤ vec_capacity list) },
}

impl Roster {
    /// No stations yet, with room for 32.
    pub fn new(heap: Global) -> Result<Roster, AllocError>
        ensures { IfOk result (λ x. placed_in x.list ≡ []) }
    {
        let list = Vec::with_capacity(heap, MOST)?;
        Ok(Roster { list })
    }

    /// The stations in the order in which they came.
    pub fn stations(&self) -> &[Station]
        ensures { result.now ≡ self.now.list.items }
    {
        self.list.as_slice()
    }

    /// Adds a station at an access port.
    pub fn add(
        &mut self,
        wiring: &Wiring,
        name: &[u8],
        address: [u8; 6],
        port: PortRef,
    ) -> Result<(), Expected>
        ensures { Did (station_added wiring.now.nodes (placed_in self.old.list) name.now address port) result (placed_in self.old.list) (placed_in self.new.list) }
    {
        let kept = Name::new(name).ok_or(Expected::Name)?;
        if self.has_name(name) {
            return Err(Expected::NewName);
        }
        if self.has_address(&address) {
            return Err(Expected::NewAddress);
        }
        want_access(wiring.port(port))?;
        if self.list.len() >= MOST {
            return Err(Expected::StationRoom);
        }
        self.list.push_reserved(Station {
            name: kept,
            address,
            port,
        });
        Ok(())
    }

    /// Puts a station at another access port.
    pub fn relocate(&mut self, wiring: &Wiring, name: &[u8], port: PortRef) -> Result<(), Expected>
        ensures { Did (station_moved wiring.now.nodes (placed_in self.old.list) name.now port) result (placed_in self.old.list) (placed_in self.new.list) }
    {
        let i = self.place_of(name).ok_or(Expected::StationThere)?;
        want_access(wiring.port(port))?;
        self.list[i].port = port;
        Ok(())
    }

    /// The place of the station that has a name.
    fn place_of(&self, name: &[u8]) -> Option<usize>
        ensures { MatchOption result (has_name name.now (placed_in self.now.list) ≡ false) (λ i. (has_name name.now (placed_in self.now.list) ≡ true) × (i ≡ name_index name.now (placed_in self.now.list)) × (i < vec_len self.now.list)) }
    {
        self.list.iter().position(|s| s.name.text() == name)
    }

    /// Says whether a station has a name.
    fn has_name(&self, name: &[u8]) -> bool
        ensures { result ≡ has_name name.now (placed_in self.now.list) }
    {
        self.place_of(name).is_some()
    }

    /// Says whether a station has an address.
    fn has_address(&self, address: &[u8; 6]) -> bool
        ensures { result ≡ has_address address.now (placed_in self.now.list) }
    {
        self.list.iter().any(|s| s.address == *address)
    }

    /// Refuses a name that no station has.
    pub fn want(&self, name: &[u8]) -> Result<(), Expected>
        ensures { result ≡ want_station name.now (placed_in self.now.list) }
    {
        if !self.has_name(name) {
            return Err(Expected::StationThere);
        }
        Ok(())
    }
}
