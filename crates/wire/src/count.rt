// The count of a link state.
ghost use Rattle.std.specs.Prelude.{◌≡◌, ◌^◌, ◌<◌, ◌≤◌, MatchOption};

// By it the newer of two link states is told: it fits the six bytes that a message has for it.
#[derive(Clone, Copy)]
pub struct Count {
    value: u64,
    ghost six_bytes: { value < 2 ^ 48 },
}

impl Count {
    // The count with this value: None where it has more than its six bytes.
    // Stays: `new` and `value` are public; the error of TryFrom would say no more than None.
    pub fn new(value: u64) -> Option<Count>
        ensures { MatchOption result (2 ^ 48 ≤ value) (λ n. (value < 2 ^ 48) × (n.value ≡ value)) }
    {
        if value < 1 << 48 {
            Some(Count { value })
        } else {
            None
        }
    }

    // Its value.
    // Stays: with `From<Count> for u64` each caller would have to name u64.
    pub fn value(self) -> u64
        ensures { (result ≡ self.value) × (result < 2 ^ 48) }
    {
        self.value
    }
}
