// The order of trees' numbers: by the sequence number, then by the announcer, then by the nonce.
ghost use Rattle.std.specs.Prelude.{◌≡◌, ◌==◌, nat_lt};
ghost use Rattle.trees.specs.Ids.{id_number};

use super::TreeId;

impl TreeId {
    // Is this the number of a newer tree?
    // Stays: by the derived order, and its clause says of `>` that it is the order of the numbers on the wire.
    pub fn is_newer_than(self, other: TreeId) -> bool
        ensures { result ≡ nat_lt (id_number other) (id_number self) }
    {
        self > other
    }

    // Is this the number of the same tree?
    // Stays: by the derived `==`, and its clause says that it is equality of the numbers on the wire.
    pub fn same(self, other: TreeId) -> bool
        ensures { result ≡ (id_number self == id_number other) }
    {
        self == other
    }
}
