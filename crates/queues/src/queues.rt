// What waits at all ports of a bridge.
ghost use Rattle.std.specs.Prelude.{◌≡◌, vec_len};

use crate::PortQueue;

mod methods;

// How many ports a bridge has at most.
pub const PORTS: usize = 16;

// The queues of sixteen ports, all made at the start.
#[derive(Drop)]
pub struct Queues {
    // Stays: made at the start and of fixed length; parts of it are lent, and no proof follows a `&mut` out of a place of an array back to it.
    ports: Vec<PortQueue>,
    ghost all: { vec_len ports ≡ 16 },
}
