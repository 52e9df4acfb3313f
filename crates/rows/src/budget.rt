// How many frames a port may send in one tick.
ghost use Rattle.std.specs.Prelude.{◌≤◌};

mod methods;

// The most frames that leave by one port between two ticks.
pub const FRAMES_EACH_TICK: u8 = 64;

// How many frames left by a port in this tick; never above 64.
// Stays: a record of its field; with an `impl Model` its bound is not seen from above, and a `Copy` struct that holds a budget
// can't be passed by value twice.
#[derive(Clone, Copy)]
pub struct Budget {
    sent: u8,
    ghost within: { sent ≤ 64 },
}
