// The frames that wait to be sent by one port.
ghost use Rattle.std.specs.Prelude.{◌≡◌, ◌<◌, ◌≤◌, vec_len};

use crate::slot::Slot;

mod methods;

// How many frames may wait at a port. Sixteen ports with as many each fill the store of 256 exactly, so that
// each port owns its places, and none can take those of another.
pub const ROW: usize = 16;

// A ring of slots, all made at the start: nothing is allocated while frames come and go. A frame that goes by several
// ports stands in the row of each, since its header and its sum differ from neighbour to neighbour.
// Stays: a record of its fields; with an `impl Model` no bound is seen from above, as that of each frame that waits.
#[derive(Drop)]
pub struct Row {
    // Stays: a ring of `circular_buffer` or `VecDeque` takes a frame by value; here its place is lent, and it is copied once.
    slots: Vec<Slot>,
    head: usize,
    used: usize,
    ghost ring: { (vec_len slots ≡ 16) × (head < 16) × (used ≤ 16) },
}
