// Settings in bytes.
ghost use Rattle.std.specs.Prelude.{◌≡◌, ◌↔◌, ℕ, ◌+◌, ◌*◌, ◌<◌, ◌≤◌, true, false, [], ◌++◌, length, is_ok, if◌then◌else◌, EachIndex, IsTrue, MatchOption, slice_index, slice_index_or};
ghost use Rattle.frames.specs.SettingsBytes.{DecodesSettings, settings_bytes, settings_head, vlans_can_be, VlansSay};
ghost use Rattle.wire.specs.Bytes.{in_two};

use super::Settings;
use std::alloc::AllocError;
use wire::{Fault, Kind, Reader, append};

impl Settings {
    // What the bytes say, if they are settings that can be.
    pub fn decode(bytes: &[u8]) -> Result<Settings, Fault>
        ensures { DecodesSettings bytes.now result }
    {
        if bytes.len() < 7
            || Kind::of(bytes)? != Kind::Settings
            || bytes.len() != 7 + 2 * usize::from(bytes[6])
        {
            return Err(Fault::Malformed);
        }
        let ports = bytes[6];
        let mut reader = Reader::at(bytes, 1);
        // Stays: by a rule of the project one answer of a reader is taken apart by `let .. else`; `map_err(|_| Fault::BadSettings)?` would say the same.
        let Ok(bridge) = reader.bridge() else {
            return Err(Fault::BadSettings);
        };
        let incarnation = reader.four()?;
        if incarnation == 0 || ports > 16 {
            return Err(Fault::BadSettings);
        }
        let vlans = read_vlans(bytes, usize::from(ports)).ok_or(Fault::BadSettings)?;
        Ok(Settings {
            bridge,
            incarnation,
            ports,
            vlans,
        })
    }

    // Appends the settings' bytes, or nothing where there is no room.
    pub fn encode(self, out: &mut Vec<u8>) -> Result<(), AllocError>
        ensures { out.new.items ≡ (if is_ok result then out.old.items ++ settings_bytes self else out.old.items) }
    {
        let vlans = vlan_bytes(&self.vlans);
        append(
            out,
            &self.head(),
            vlans[..usize::from(self.ports)].as_flattened(),
        )
    }

    // All that stands before the vlans.
    // Stays: put together by letters, since no type can name an array whose length is a sum.
    fn head(self) -> [u8; 7]
        ensures { result ≡ settings_head self }
    {
        let [a, b, c, d] = self.incarnation.to_be_bytes();
        let kind = Kind::Settings.byte();
        [kind, self.bridge.value(), a, b, c, d, self.ports]
    }
}

// The vlan of each port, if they can be.
fn read_vlans(bytes: &[u8], ports: usize) -> Option<[u16; 16]>
    requires { (ports ≤ 16) × (7 + 2 * ports ≤ length bytes.now) }
    ensures { MatchOption result (vlans_can_be bytes.now ports ≡ false) (λ v. (vlans_can_be bytes.now ports ≡ true) × VlansSay bytes.now ports v) }
{
    let (cells, _) = bytes[7..7 + 2 * ports].as_chunks::<2>();
    let mut vlans = [0; 16];
    for (port, cell) in cells.iter().enumerate() {
        vlans[port] = u16::from_be_bytes(*cell);
    }
    can_be(&vlans[..ports]).then_some(vlans)
}

// Is each of them a vlan, or none?
fn can_be(vlans: &[u16]) -> bool
    ensures { IsTrue result ↔ EachIndex vlans.now (λ k. slice_index vlans.now k ≤ 4094) }
{
    vlans.iter().all(|vlan| *vlan <= 4094)
}

// The two bytes of each vlan.
fn vlan_bytes(vlans: &[u16; 16]) -> [[u8; 2]; 16]
    ensures { (k : ℕ) → k < 16 → slice_index_or result k [] ≡ in_two (slice_index vlans.now k) }
{
    // Stays: by `array::from_fn` the clause stays open: no equation is found for the array that its closure gives.
    let mut cells = [[0; 2]; 16];
    for (port, cell) in cells.iter_mut().enumerate() {
        *cell = vlans[port].to_be_bytes();
    }
    cells
}
