// The names of stations, kept apart from the script.
ghost use Rattle.std.specs.Prelude.{◌≡◌, ◌<◌, ◌≤◌, ◌-◌, length, take, drop, replicate, MatchOption};

use std::fmt;
use std::str::from_utf8;

/// The bytes of the longest name.
const LONGEST: usize = 16;

/// The name of a station, of up to 16 bytes; those past its end are zero, so that == compares the text.
// Stays: a String would allocate, and an ArrayVec of arrayvec is not Copy, as a name and a station are.
#[derive(Clone, Copy, PartialEq, Eq, Debug)]
pub struct Name {
    bytes: [u8; LONGEST],
    len: usize,
    ghost fits: { len ≤ 16 },
    ghost blank: { drop len bytes ≡ replicate (16 - len) 0 },
}

impl Name {
    // Stays: a TryFrom would need an error type for the one reason that this None has.
    /// Keeps a word as a name, if it is not too long.
    pub fn new(word: &[u8]) -> Option<Name>
        ensures { MatchOption result (16 < length word.now) (λ n. (take n.len n.bytes ≡ word.now) × (length word.now ≤ 16)) }
    {
        let len = word.len();
        if len > LONGEST {
            return None;
        }
        let mut bytes = [0; LONGEST];
        bytes[..len].copy_from_slice(word);
        Some(Name { bytes, len })
    }

    /// The bytes of the name.
    pub fn text(&self) -> &[u8]
        ensures { result.now ≡ take self.now.len self.now.bytes }
    {
        &self.bytes[..self.len]
    }
}

impl fmt::Display for Name {
    ghost use Rattle.std.specs.Prelude.{Some};
    ghost use Rattle.layout.specs.Stations.{shown};

    ghost output = { λ n. Some (shown n) };

    fn fmt<W: fmt::Write>(&self, f: &mut fmt::Formatter<W>) -> fmt::Result {
        f.write_str(from_utf8(self.text()).unwrap_or("?"))
    }
}
