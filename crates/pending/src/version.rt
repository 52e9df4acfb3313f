// Which of two versions is the newer.
ghost use Rattle.std.specs.Prelude.{◌≡◌};
ghost use Rattle.pending.specs.Acks.{later};

// Which link state of a bridge is meant: its count, and the incarnation that told it. The order of the fields is the order
// in which they decide.
#[derive(Clone, Copy, PartialEq, Eq, PartialOrd, Ord, Default, Debug)]
pub struct Version {
    pub count: u64,
    pub incarnation: u32,
}

impl Version {
    // Whether it is the newer of the two: the higher count, then the higher incarnation.
    // Stays: part of the public interface; it says that the derived order is that of the rules, which `>` alone does not.
    pub fn is_newer_than(self, other: Version) -> bool
        ensures { result ≡ later self other }
    {
        self > other
    }
}
