// Trees over bridges, each with a number of its own: frames are carried along them.
#![tactic(auto)]

mod shape;
mod spanning_tree;
mod tree_id;
mod walks;

ghost use Rattle.trees.specs.Ids.{OneNumberOneId, OrderedByParts};
ghost use Rattle.trees.specs.Shapes.{LooksInWords};

pub use shape::TreeFault;
pub use spanning_tree::Tree;
pub use tree_id::TreeId;
pub use walks::walks_are_simple;

// Trees' numbers go by the sequence number, then by the announcer, then by the nonce.
#[tactic(auto, using(crate::proofs::Ids::ordered_by_parts))]
pub fn ordered_by_parts_stands() -> u8
    ensures { OrderedByParts }
{
    0
}

// Trees with one number have one sequence number, announcer and nonce.
#[tactic(auto, using(crate::proofs::Ids::one_number_one_id))]
pub fn one_number_one_id_stands() -> u8
    ensures { OneNumberOneId }
{
    0
}

// What looks like a tree: each bridge is its own parent, or deeper than its parent.
#[tactic(auto, using(crate::proofs::Shapes::looks_in_words))]
pub fn looks_in_words_stands() -> u8
    ensures { LooksInWords }
{
    0
}

// Examples: trees that are taken and refused, and the order of their numbers.
#[cfg(test)]
mod tests {
    use crate::{Tree, TreeFault, TreeId};
    use sets::{BridgeId, BridgeSet};
    use std::test::Fail;

    fn bridge(number: u8) -> Result<BridgeId, Fail> {
        BridgeId::new(number).ok_or_else(|| Fail::new("no bridge has this number"))
    }

    fn tree_id(seq: u32, announcer: u8, nonce: u32) -> Result<TreeId, Fail> {
        TreeId::new(seq, bridge(announcer)?, nonce).ok_or_else(|| Fail::new(
            "no tree has this number",
        ))
    }

    // What becomes of a ring of 0, 1, 2 and 3 in which 1 and 3 are below 0, and 2 is below `above` at `deep`.
    fn fault(above: u8, deep: u8) -> Result<Option<TreeFault>, Fail> {
        let mut parent = [0u8; 128];
        let mut depth = [1u8; 128];
        depth[0] = 0;
        parent[2] = above;
        depth[2] = deep;
        Ok(Tree::new(tree_id(1, 0, 7)?, parent, depth).err())
    }

    #[test]
    fn trees_and_no_trees(rt: HostRuntime) -> Result<(), Fail> {
        let rows: [(u8, u8, Option<TreeFault>); 8] = [
            (1, 2, None),
            (1, 255, None),
            (1, 1, Some(TreeFault::NotATree)),
            (1, 0, Some(TreeFault::NotATree)),
            (2, 0, None),
            (127, 2, None),
            (128, 2, Some(TreeFault::NoSuchBridge)),
            (255, 0, Some(TreeFault::NoSuchBridge)),
        ];
        for (above, deep, expected) in rows {
            assert_eq!(rt; fault(above, deep)?, expected);
        }
        Ok(())
    }

    #[test]
    fn a_ring_and_a_loop(rt: HostRuntime) -> Result<(), Fail> {
        let mut parent = [0u8; 128];
        let mut depth = [1u8; 128];
        depth[0] = 0;
        parent[2] = 1;
        depth[2] = 2;
        let (zero, one, two) = (bridge(0)?, bridge(1)?, bridge(2)?);
        let ring = Tree::new(tree_id(1, 0, 7)?, parent, depth).map_err(|_| Fail::new(
            "a ring has a tree",
        ))?;
        assert_eq!(rt; ring.neighbours(one), BridgeSet::only(zero).with(two));
        assert!(rt; !ring.is_joined(zero, two) && !ring.is_joined(one, one));
        assert!(rt; ring.parent_of(two).value() == 1 && ring.depth_of(two) == 2);
        parent[1] = 2;
        let fault = Tree::new(tree_id(1, 0, 7)?, parent, depth).err();
        assert_eq!(rt; fault, Some(TreeFault::NotATree));
        Ok(())
    }

    #[test]
    fn order_of_numbers(rt: HostRuntime) -> Result<(), Fail> {
        let rows: [(u32, u8, u32); 5] = [
            (1, 9, 9),
            (1, 9, 16777215),
            (1, 10, 0),
            (2, 0, 0),
            (4294967295, 127, 16777215),
        ];
        let mut last = tree_id(0, 127, 16777215)?;
        for (seq, announcer, nonce) in rows {
            let id = tree_id(seq, announcer, nonce)?;
            assert!(rt; id.is_newer_than(last) && !last.is_newer_than(id) && !id.is_newer_than(id));
            assert!(rt; id.same(id) && !id.same(last));
            last = id;
        }
        assert!(rt; TreeId::new(0, bridge(0)?, 16777216).is_none());
        Ok(())
    }
}
