// The number of a bridge.
ghost use Rattle.std.specs.Prelude.{◌≡◌, ◌<◌, ◌≤◌, MatchOption, Some, decimal};
ghost use Rattle.std.specs.Fmt.{styled_decimal};

use crate::MOST_BRIDGES;
use std::fmt;

// The number of a bridge, which is below the most that a net may have: so that an array of all bridges may be indexed by it.
#[derive(Clone, Copy, PartialEq, Eq, PartialOrd, Ord, Hash, Debug)]
pub struct BridgeId {
    value: u8,
    ghost ok: { value < 128 },
}

impl BridgeId {
    // Stays: as NonZeroU8's `new`; `BridgeId::try_from(n).ok()` says no more.
    // The bridge with this number: None where no bridge can have it.
    pub fn new(value: u8) -> Option<BridgeId>
        ensures { MatchOption result (128 ≤ value) (λ b. (value < 128) × (b.value ≡ value)) }
    {
        if usize::from(value) < MOST_BRIDGES {
            Some(BridgeId { value })
        } else {
            None
        }
    }

    // Stays: as NonZeroU8's `get`; `u8::from(b)` says no more.
    // Its number as it stands in a message.
    pub fn value(self) -> u8
        ensures { (result ≡ self.value) × (result < 128) }
    {
        self.value
    }

    // Stays: `row[usize::from(b)]` says no more than `row[b.index()]`.
    // Its number as an index.
    pub fn index(self) -> usize
        ensures { (result ≡ self.value) × (result < 128) }
    {
        usize::from(self.value)
    }
}

// Its number in decimal.
impl fmt::Display for BridgeId {
    ghost output = { λ b. Some (decimal b.value) };

    ghost styled_output = { λ b s. Some (styled_decimal s b.value) };

    fn fmt<W: fmt::Write>(&self, f: &mut fmt::Formatter<W>) -> fmt::Result {
        fmt::Display::fmt(&self.value, f)
    }
}
