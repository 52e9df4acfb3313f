// One bridge by value: what it holds, what it has learnt, and what it does with a frame.
#![tactic(auto)]

mod along;
mod bridge;
mod fault;
mod frames;
mod held;
mod steps;

pub use along::{Passing, forward};
pub use bridge::Bridge;
pub use fault::Fault;
pub use frames::Arrival;
pub use held::Held;
