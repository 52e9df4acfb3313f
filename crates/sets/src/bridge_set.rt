// Sets of bridges.
#![tactic(auto, using(crate::proofs::Members::members))]

ghost use Rattle.std.specs.Prelude.{◌≡◌, ℕ, ◌<◌, ◌≤◌, true, false, not, ◌&&◌, ◌||◌, MatchBool, MatchOption, ◌==◌};
ghost use Rattle.sets.specs.Sets.{has, has_byte, bytes_of, number_of, MembersAre};

use crate::BridgeId;

// A set of bridges, small enough to be passed by value: neighbours, and who can be reached. Bridge 0 is its highest bit, as
// in a message.
#[derive(Clone, Copy, PartialEq, Eq, Debug)]
pub struct BridgeSet {
    bits: u128,
}

impl BridgeSet {
    // No bridge at all.
    pub fn empty() -> BridgeSet
        ensures { MembersAre result.bits (λ _. false) }
    {
        BridgeSet { bits: 0 }
    }

    // One bridge alone.
    pub fn only(b: BridgeId) -> BridgeSet
        ensures { MembersAre result.bits (λ k. k == b.value) }
    {
        BridgeSet {
            bits: 1 << (127 - b.index()),
        }
    }

    // Is the bridge in it?
    #[tactic(auto, unfolding(crate::specs::Sets::has))]
    pub fn contains(self, b: BridgeId) -> bool
        ensures { result ≡ has self.bits b.value }
    {
        (self.bits >> (127 - b.index())) % 2 == 1
    }

    // The set with the bridge in it.
    pub fn with(self, b: BridgeId) -> BridgeSet
        ensures { MembersAre result.bits (λ k. k == b.value || has self.bits k) }
    {
        BridgeSet::only(b).union(self)
    }

    // The set with the bridge left out.
    pub fn without(self, b: BridgeId) -> BridgeSet
        ensures { MembersAre result.bits (λ k. not (k == b.value) && has self.bits k) }
    {
        self.difference(BridgeSet::only(b))
    }

    // What is in either.
    pub fn union(self, other: BridgeSet) -> BridgeSet
        ensures { MembersAre result.bits (λ k. has self.bits k || has other.bits k) }
    {
        BridgeSet {
            bits: self.bits | other.bits,
        }
    }

    // What is in both.
    pub fn intersection(self, other: BridgeSet) -> BridgeSet
        ensures { MembersAre result.bits (λ k. has self.bits k && has other.bits k) }
    {
        BridgeSet {
            bits: self.bits & other.bits,
        }
    }

    // What is in this one and not in the other.
    pub fn difference(self, other: BridgeSet) -> BridgeSet
        ensures { MembersAre result.bits (λ k. has self.bits k && not (has other.bits k)) }
    {
        BridgeSet {
            bits: self.bits & !other.bits,
        }
    }

    // Is nothing in it?
    pub fn is_empty(self) -> bool
        ensures { MatchBool result (MembersAre self.bits (λ _. false)) ((k : ℕ) × (k < 128) × (has self.bits k ≡ true)) }
    {
        self.first().is_none()
    }

    // The lowest bridge in it: None where nothing is in it.
    #[tactic(auto, using(crate::proofs::Members::first_in, crate::proofs::Members::none_before))]
    pub fn first(self) -> Option<BridgeId>
        ensures { MatchOption result (MembersAre self.bits (λ _. false)) (λ b. (has self.bits b.value ≡ true) × ((k : ℕ) → k < b.value → has self.bits k ≡ false)) }
    {
        // Stays: the cast is proved to fit, and `u8::try_from(..)` would add an error that never comes.
        BridgeId::new(self.bits.leading_zeros() as u8)
    }

    // The set as it stands in a message: the high bit of the first byte is bridge 0.
    pub fn to_bytes(self) -> [u8; 16]
        ensures whole { result ≡ bytes_of self.bits }
        ensures members { (k : ℕ) → k < 128 → has_byte result k ≡ has self.bits k }
    {
        mask_bytes(self.bits)
    }

    // The set that 16 bytes of a message say.
    pub fn from_bytes(bytes: [u8; 16]) -> BridgeSet
        ensures whole { result.bits ≡ number_of bytes }
        ensures members { MembersAre result.bits (has_byte bytes) }
    {
        BridgeSet {
            bits: mask_of(bytes),
        }
    }
}

// The 16 bytes of a mask, high byte first.
fn mask_bytes(mask: u128) -> [u8; 16]
    ensures whole { result ≡ bytes_of mask }
    ensures members { (k : ℕ) → k < 128 → has_byte result k ≡ has mask k }
{
    mask.to_be_bytes()
}

// The mask that 16 bytes make, high byte first.
fn mask_of(bytes: [u8; 16]) -> u128
    ensures whole { result ≡ number_of bytes }
    ensures members { MembersAre result (has_byte bytes) }
{
    u128::from_be_bytes(bytes)
}
