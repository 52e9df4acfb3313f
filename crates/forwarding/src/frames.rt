// A frame comes to a bridge, from a station or from a neighbour.
ghost use Rattle.std.specs.Prelude.{◌≡◌};
ghost use Rattle.trees.specs.Ids.{id_number};
ghost use Rattle.fdb.specs.Address.{station_number, group_address};
ghost use Rattle.fdb.specs.Contents.{number_of};
ghost use Rattle.std.specs.Option.{option_map};
ghost use Rattle.forwarding.specs.Replies.{FromStation, FromNeighbour, neighbour_way, number_in};
ghost use Rattle.forwarding.specs.Ways.{way_of};
ghost use Rattle.forwarding.specs.Holding.{state_of};

use crate::{Bridge, Fault, Passing, forward};
use fdb::Station;
use ports::{Inbound, Ingress, Port, PortId, Vlan};
use sets::BridgeId;
use trees::TreeId;

// Is the address that of a group? Such a one sends nothing.
fn is_group(address: [u8; 6]) -> bool
    ensures { result ≡ group_address address }
{
    address[0] % 2 == 1
}

// The station with an address in a VLAN.
fn station_in(address: [u8; 6], vlan: Vlan) -> Station
    ensures { (result.address ≡ address) × (number_of result ≡ station_number address vlan.value) }
{
    Station::new(address, vlan.value()).unwrap()
}

// A frame that came in, by the addresses from which and to which it goes.
fn passing(inbound: Inbound, from: [u8; 6], to: [u8; 6]) -> Passing
    ensures inbound { result.inbound ≡ inbound }
    ensures sender { (result.from.address ≡ from) × (number_of result.from ≡ station_number from inbound.vlan.value) }
    ensures receiver { number_of result.to ≡ station_number to inbound.vlan.value }
{
    Passing {
        inbound,
        from: station_in(from, inbound.vlan),
        to: station_in(to, inbound.vlan),
    }
}

// Along which of the two trees that a bridge holds.
#[derive(Clone, Copy)]
enum Along {
    Newest,
    Older,
}

// A frame from a neighbour, by what stands before it and in it.
#[derive(Clone, Copy)]
pub struct Arrival {
    // The neighbour that handed it on, and the bridge that it is for.
    pub by: BridgeId,
    pub to_bridge: BridgeId,
    // The tree along which it goes, and its VLAN.
    pub tree: TreeId,
    pub vlan: Vlan,
    // From whom to whom.
    pub from: [u8; 6],
    pub to: [u8; 6],
}

impl Bridge {
    // The number of its newest tree: along that a station's frame goes.
    pub fn newest_tree(&self) -> Option<TreeId>
        ensures { option_map id_number result ≡ number_in (state_of self.now).newest.tree }
    {
        self.newest.tree.as_ref().map(|tree| tree.id())
    }

    // A station's frame comes by a port: it goes along the newest tree. The answer has a flag for each port by which it goes out.
    pub fn from_station(
        mut self,
        port: u8,
        from: [u8; 6],
        to: [u8; 6],
        tick: u64,
    ) -> (Bridge, Result<[bool; 16], Fault>)
        ensures { FromStation (state_of self) port from to tick (state_of result.0) result.1 }
    {
        let out = self.hear_station(port, from, to, tick);
        (self, out)
    }

    // The same in place, where refusals go by `?`.
    fn hear_station(
        &mut self,
        port: u8,
        from: [u8; 6],
        to: [u8; 6],
        tick: u64,
    ) -> Result<[bool; 16], Fault>
        ensures { FromStation (state_of self.old) port from to tick (state_of self.new) result }
    {
        if is_group(from) {
            return Err(Fault::GroupSender);
        }
        let by = PortId::new(port).ok_or(Fault::NoSuchPort)?;
        // Stays: `vlan().ok_or(Fault::NoVlan)?` would want a method of Port for this caller alone.
        let Port::Access(vlan) = self.chassis.ports[by.index()] else {
            return Err(Fault::NoVlan);
        };
        // Stays: `self.newest.tree.as_ref().ok_or(Fault::NoTree)?;` would get the tree only to drop it.
        if self.newest.tree.is_none() {
            return Err(Fault::NoTree);
        }
        let ingress = Ingress::Station(by);
        let frame = passing(Inbound { vlan, ingress }, from, to);
        Ok(forward(&mut self.newest, &self.chassis, frame, tick))
    }

    // A frame comes from a neighbour: it goes along the tree that it names. The answer has a flag for each port by which it goes out.
    pub fn from_neighbour(
        mut self,
        frame: Arrival,
        tick: u64,
    ) -> (Bridge, Result<[bool; 16], Fault>)
        ensures { FromNeighbour (state_of self) frame.by.value frame.to_bridge.value (id_number frame.tree) frame.vlan.value frame.from frame.to tick (state_of result.0) result.1 }
    {
        let out = self.hear_neighbour(frame, tick);
        (self, out)
    }

    // The same in place, where refusals go by `?`.
    fn hear_neighbour(&mut self, frame: Arrival, tick: u64) -> Result<[bool; 16], Fault>
        ensures { FromNeighbour (state_of self.old) frame.by.value frame.to_bridge.value (id_number frame.tree) frame.vlan.value frame.from frame.to tick (state_of self.new) result }
    {
        let along = self.tree_for(frame)?;
        let inbound = Inbound {
            vlan: frame.vlan,
            ingress: Ingress::Neighbour(frame.by),
        };
        let frame = passing(inbound, frame.from, frame.to);
        // Stays: with `let held = match along { .. };` and one call, no proof was found of what the bridge is once that loan ends.
        match along {
            Along::Newest => Ok(forward(&mut self.newest, &self.chassis, frame, tick)),
            Along::Older => Ok(forward(&mut self.older, &self.chassis, frame, tick)),
        }
    }

    // Along which of its trees a frame from a neighbour goes.
    fn tree_for(&self, frame: Arrival) -> Result<Along, Fault>
        ensures { way_of result ≡ neighbour_way (state_of self.now) frame.to_bridge.value (id_number frame.tree) frame.from }
    {
        if is_group(frame.from) {
            return Err(Fault::GroupSender);
        }
        // Stays: `self.newest.tree.as_ref().ok_or(Fault::NoTree)?;` would get the tree only to drop it.
        if self.newest.tree.is_none() {
            return Err(Fault::NoTree);
        }
        if frame.to_bridge != self.chassis.id {
            return Err(Fault::NotForUs);
        }
        if self.newest.has_number(frame.tree) {
            return Ok(Along::Newest);
        }
        if self.older.has_number(frame.tree) {
            return Ok(Along::Older);
        }
        Err(Fault::UnknownTree)
    }
}
