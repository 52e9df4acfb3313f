// Settings: the first thing that a bridge is told.
mod codec;

ghost use Rattle.std.specs.Prelude.{◌≤◌};

use sets::BridgeId;

// The most ports of a bridge.
pub const MOST_PORTS: usize = 16;

// A bridge's number, the number of its start, how many ports it has, and for each the vlan of its stations, 0 where it leads to a bridge.
#[derive(Clone, Copy)]
pub struct Settings {
    pub bridge: BridgeId,
    pub incarnation: u32,
    // Stays: a length beside a row, and 0 for no vlan, since settings are of fixed size, on no heap, and callers write both fields.
    pub ports: u8,
    pub vlans: [u16; 16],
    ghost room: { ports ≤ 16 },
}
