// The number of a tree, in its parts.
mod order;

ghost use Rattle.std.specs.Prelude.{◌≡◌, ◌^◌, ◌<◌, ◌≤◌, MatchOption};

use sets::BridgeId;

// The number of a tree, by which it is told from every other and is newer or older: carried by each frame.
#[derive(Clone, Copy, PartialEq, Eq, PartialOrd, Ord, Hash, Debug)]
pub struct TreeId {
    seq: u32,
    announcer: BridgeId,
    nonce: u32,
    ghost three_bytes: { nonce < 2 ^ 24 },
}

impl TreeId {
    // The number with these parts: None where the nonce has more than its 3 bytes.
    pub fn new(seq: u32, announcer: BridgeId, nonce: u32) -> Option<TreeId>
        ensures { MatchOption result (2 ^ 24 ≤ nonce) (λ i. (nonce < 2 ^ 24) × (i.seq ≡ seq) × (i.announcer ≡ announcer) × (i.nonce ≡ nonce)) }
    {
        if nonce < 1 << 24 {
            Some(TreeId {
                seq,
                announcer,
                nonce,
            })
        } else {
            None
        }
    }

    // The sequence number, one higher than any that its announcer had heard of.
    pub fn seq(self) -> u32
        ensures { result ≡ self.seq }
    {
        self.seq
    }

    // The bridge that announced the tree.
    pub fn announcer(self) -> BridgeId
        ensures { result ≡ self.announcer }
    {
        self.announcer
    }

    // What its announcer drew at its start, so that a sequence number that comes again makes another tree.
    pub fn nonce(self) -> u32
        ensures { (result ≡ self.nonce) × (result < 2 ^ 24) }
    {
        self.nonce
    }
}
