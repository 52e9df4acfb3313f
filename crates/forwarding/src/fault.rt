// Why a bridge refuses something.

ghost use Rattle.std.specs.Prelude.{◌≡◌};
ghost use Rattle.forwarding.specs.Faults.{fault_number};

use std::error::Error;
use std::fmt;

// A refusal: each has a number that users see.
#[derive(Clone, Copy, PartialEq, Eq, Debug)]
pub enum Fault {
    // The sender's address is that of a group.
    GroupSender,
    // The bridge has no such port.
    NoSuchPort,
    // The port leads to stations, and to no bridge.
    NotATrunk,
    // The port leads to no stations: it has no VLAN.
    NoVlan,
    // There is no tree yet.
    NoTree,
    // The frame is for another bridge.
    NotForUs,
    // The frame goes along a tree that the bridge doesn't hold.
    UnknownTree,
}

impl Fault {
    // The number that users see.
    // Stays: several refusals have one number, so no discriminant says it, and callers print it among other words.
    pub fn number(self) -> u8
        ensures { result ≡ fault_number self }
    {
        match self {
            Fault::GroupSender => 1,
            Fault::NoSuchPort | Fault::NotATrunk => 2,
            Fault::NoVlan | Fault::NoTree => 3,
            Fault::NotForUs | Fault::UnknownTree => 4,
        }
    }
}

// A refusal is shown by its number.
impl fmt::Display for Fault {
    ghost use Rattle.std.specs.Prelude.{Some};
    ghost use Rattle.std.specs.Fmt.{decimal};
    ghost use Rattle.forwarding.specs.Faults.{fault_number};

    ghost output = { λ fault. Some (decimal (fault_number fault)) };

    fn fmt<W: fmt::Write>(&self, f: &mut fmt::Formatter<W>) -> fmt::Result {
        write!(f, "{}", self.number())
    }
}

impl Error for Fault {}
