// Numbers of bridges, and sets of them: what every layer above counts and names bridges by.
#![tactic(auto)]

mod bridge_id;
mod bridge_set;

ghost use Rattle.sets.specs.Sets.{SameMembers, ThereAndBack};

pub use bridge_id::BridgeId;
pub use bridge_set::BridgeSet;

// The most bridges of a net: every bridge's number is below it.
pub const MOST_BRIDGES: usize = 128;

// Stays: it compares nothing, and its name is the theorem's.
// Two sets with the same members are one set: a set is what is in it.
#[tactic(auto, using(crate::proofs::Members::same_members))]
pub fn same_members_stands() -> u8
    ensures { SameMembers }
{
    0
}

// A set comes back from its bytes, and 16 bytes from the set that they say: a message carries a set whole.
#[tactic(auto, using(crate::proofs::InBytes::there_and_back))]
pub fn there_and_back_stands() -> u8
    ensures { ThereAndBack }
{
    0
}

// Examples: the numbers that a bridge may have, and the bytes of sets.
#[cfg(test)]
mod tests {
    use crate::{BridgeId, BridgeSet};
    use std::test::Fail;

    fn bridge(number: u8) -> Result<BridgeId, Fail> {
        BridgeId::new(number).ok_or_else(|| Fail::new("no bridge has this number"))
    }

    #[test]
    fn numbers_and_bytes(rt: HostRuntime) -> Result<(), Fail> {
        assert_eq!(rt; BridgeId::new(128), None);
        assert_eq!(rt; BridgeId::new(255), None);
        let rows: [(u8, u128); 5] = [
            (0, 0x80000000_00000000_00000000_00000000),
            (7, 0x01000000_00000000_00000000_00000000),
            (8, 0x00800000_00000000_00000000_00000000),
            (126, 2),
            (127, 1),
        ];
        for (number, bits) in rows {
            let b = bridge(number)?;
            let s = BridgeSet::only(b);
            assert_eq!(rt; u128::from_be_bytes(s.to_bytes()), bits);
            assert_eq!(rt; BridgeSet::from_bytes(s.to_bytes()), s);
            assert_eq!(rt; s.first(), Some(b));
            assert!(rt; s.contains(b) && s.without(b).is_empty());
        }
        Ok(())
    }

    #[test]
    fn printed_and_ordered(rt: HostRuntime) -> Result<(), Fail> {
        let alloc = rt.alloc();
        let seven = bridge(7)?;
        let last = bridge(127)?;
        assert_eq!(rt;
            format!(in alloc; "{seven} {last} {seven:>4}")?.as_str(),
            "7 127    7"
        );
        assert!(rt; seven < last && last.max(seven) == last);
        Ok(())
    }

    #[test]
    fn members(rt: HostRuntime) -> Result<(), Fail> {
        let zero = bridge(0)?;
        let five = bridge(5)?;
        let last = bridge(127)?;
        let ends = BridgeSet::empty().with(last).with(zero);
        let low = BridgeSet::only(five).with(zero);
        assert_eq!(rt; ends.first(), Some(zero));
        assert_eq!(rt; ends.union(low).without(zero).first(), Some(five));
        assert_eq!(rt; ends.intersection(low), BridgeSet::only(zero));
        assert_eq!(rt; ends.difference(low), BridgeSet::only(last));
        assert_eq!(rt; BridgeSet::empty().first(), None);
        Ok(())
    }
}
