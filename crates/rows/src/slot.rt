// The place of one frame in the store.
ghost use Rattle.std.specs.Prelude.{◌≤◌};

mod methods;

// The longest frame: one between bridges, with its header and its sum.
pub const LONGEST_FRAME: usize = 1529;

// A frame is written here where it waits, so that it is copied once.
// Stays: a record of its fields; with an `impl Model` no bound is seen from above, as that of what is written through a lent slot.
#[derive(Drop)]
pub struct Slot {
    // Stays: `arrayvec`'s `clear` blanks each byte of the frame before, which takes a row from 234, 92 and 28 million
    // frames a second (64, 512, 1529 bytes) to 24, 24 and 10, below `VecDeque`'s 104, 64 and 28.
    bytes: [u8; LONGEST_FRAME],
    len: usize,
    ghost within: { len ≤ 1529 },
}
