// VLANs: who may hear whom.
ghost use Rattle.std.specs.Prelude.{◌≡◌, ◌<◌, ◌≤◌, ◌⊎◌, MatchOption};

// A VLAN that can be: 1 to 4,094.
#[derive(Clone, Copy, PartialEq, Eq, Debug)]
pub struct Vlan {
    value: u16,
    ghost ok: { (1 ≤ value) × (value < 4095) },
}

impl Vlan {
    // The VLAN with this number: None where there is none.
    // Stays: `new` is public, and a TryFrom beside it would have an error that says no more than None.
    pub fn new(value: u16) -> Option<Vlan>
        ensures { MatchOption result ((value ≡ 0) ⊎ (4095 ≤ value)) (λ v. v.value ≡ value) }
    {
        if value == 0 || value >= 4095 {
            None
        } else {
            Some(Vlan { value })
        }
    }

    // Its number.
    // Stays: `value` is public, and `u16::from(vlan)` would lose that it is from 1 to 4,094.
    pub fn value(self) -> u16
        ensures { (result ≡ self.value) × ((1 ≤ result) × (result < 4095)) }
    {
        self.value
    }
}
