// A station: an address and a VLAN, and the one number that the table compares.
ghost use Rattle.std.specs.Prelude.{◌≡◌, ◌^◌, ◌<◌, ◌≤◌, MatchOption};
ghost use Rattle.fdb.specs.Address.{address_number, station_number, group_address};

// What the forwarding database learns of: the same address in two VLANs is two stations.
#[derive(Clone, Copy)]
pub struct Station {
    // Stays: addresses are byte strings throughout, as a frame has them.
    pub address: [u8; 6],
    pub vlan: u16,
    ghost tagged: { vlan < 4096 },
}

// An address as one number of 48 bits.
#[tactic(auto, unfolding(crate::specs::Address::address_number))]
fn address_number(address: [u8; 6]) -> u64
    ensures value { result ≡ address_number address }
    ensures bound { result < 2 ^ 48 }
{
    let [a, b, c, d, e, f] = address;
    u64::from_be_bytes([0, 0, a, b, c, d, e, f])
}

impl Station {
    // A station of a VLAN that fits the 12 bits of a tag; `None` for any other, since two stations could then have one number.
    // Stays: `Station::try_from((address, vlan))` would be no plainer, and hide which is which.
    pub fn new(address: [u8; 6], vlan: u16) -> Option<Self>
        ensures { MatchOption result (4096 ≤ vlan) (λ s. (vlan < 4096) × (s.address ≡ address) × (s.vlan ≡ vlan)) }
    {
        if vlan < 4096 {
            Some(Station { address, vlan })
        } else {
            None
        }
    }

    // The station as one number, so that a comparison in the table is of one word.
    // Stays: `u64::from(station)` would not say that it is the key of the table.
    pub fn number(self) -> u64
        ensures { result ≡ station_number self.address self.vlan }
    {
        address_number(self.address) * 4096 + u64::from(self.vlan)
    }

    // Whether the address is that of a group: such a one sends nothing, and is never learnt.
    pub fn is_group(self) -> bool
        ensures { result ≡ group_address self.address }
    {
        self.address[0] % 2 == 1
    }
}
