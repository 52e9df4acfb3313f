// Why a string of bytes is refused.
ghost use Rattle.wire.specs.Faults.{fault_of, number_of};
ghost use Rattle.std.specs.Prelude.{◌≡◌, Some, decimal};

use std::error::Error;
use std::fmt;
use trees::TreeFault;

// Each cause with a name of its own; `number` gives the number that the rules give it.
#[derive(Clone, Copy, PartialEq, Eq, Debug)]
pub enum Fault {
    // an unknown kind, a bad length, a wrong sum
    Malformed,
    // a frame whose sender's address has an odd first byte: that of a group
    GroupSender,
    // a bridge, a port or a vlan that isn't there
    NotThere,
    // a tree that isn't one
    NotATree,
    // settings that can't be
    BadSettings,
}

impl Fault {
    // The number of the cause, by which of several the lowest wins.
    // Stays: callers compare numbers; two causes share the 1, so no discriminants can be the numbers.
    pub fn number(self) -> u8
        ensures { result ≡ number_of self }
    {
        match self {
            Fault::Malformed => 1,
            Fault::GroupSender => 1,
            Fault::NotThere => 2,
            Fault::NotATree => 5,
            Fault::BadSettings => 10,
        }
    }
}

// A cause prints as its number.
impl fmt::Display for Fault {
    ghost output = { λ fault. Some (decimal (number_of fault)) };

    fn fmt<W: fmt::Write>(&self, f: &mut fmt::Formatter<W>) -> fmt::Result {
        write!(f, "{}", self.number())
    }
}

impl Error for Fault {}

// Why a tree in bytes is refused.
impl From<TreeFault> for Fault {
    ghost from_gives = { λ tree fault. fault ≡ fault_of tree };

    fn from(tree: TreeFault) -> Fault {
        match tree {
            TreeFault::NoSuchBridge => Fault::NotThere,
            TreeFault::NotATree => Fault::NotATree,
        }
    }
}
