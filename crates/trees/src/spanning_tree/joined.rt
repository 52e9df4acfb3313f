// Making a tree, and who is joined to whom in it.
ghost use Rattle.std.specs.Prelude.{◌≡◌, ℕ, ◌<◌, ◌≤◌, MatchResult};
ghost use Rattle.sets.specs.Sets.{MembersAre};
ghost use Rattle.trees.specs.Tree.{joined};
ghost use Rattle.trees.specs.Ids.{id_number};
ghost use Rattle.trees.specs.Meanings.{meaning, Refused};

use super::Tree;
use crate::{TreeFault, TreeId, shape};
use sets::{BridgeId, BridgeSet, MOST_BRIDGES};

impl Tree {
    // The tree with these parents and depths, if they are one.
    // Stays: a public function takes no other type than before.
    pub fn new(
        id: TreeId,
        parent: [u8; MOST_BRIDGES],
        depth: [u8; MOST_BRIDGES],
    ) -> Result<Tree, TreeFault>
        ensures { MatchResult result (λ t. (t.id ≡ id) × (t.parent ≡ parent) × (t.depth ≡ depth)) (λ e. Refused (id_number id) parent depth e) }
    {
        if !shape::is_named(&parent) {
            return Err(TreeFault::NoSuchBridge);
        }
        if !shape::is_tree(&parent, &depth) {
            return Err(TreeFault::NotATree);
        }
        Ok(Tree { id, parent, depth })
    }

    // Its number.
    pub fn id(&self) -> TreeId
        ensures { result ≡ self.now.id }
    {
        self.id
    }

    // The bridge above this one: itself at a top.
    pub fn parent_of(&self, b: BridgeId) -> BridgeId
        ensures { result.value ≡ (meaning self.now).above b.value }
    {
        BridgeId::new(self.parent[b.index()]).unwrap()
    }

    // How far the bridge is from the top of its part.
    pub fn depth_of(&self, b: BridgeId) -> u8
        ensures { result ≡ (meaning self.now).far b.value }
    {
        self.depth[b.index()]
    }

    // Is one of the two the other's parent?
    pub fn is_joined(&self, a: BridgeId, b: BridgeId) -> bool
        ensures { result ≡ joined (meaning self.now) a.value b.value }
    {
        a != b && (self.parent_of(a) == b || self.parent_of(b) == a)
    }

    // All that are joined to the bridge: where its frames may go.
    pub fn neighbours(&self, b: BridgeId) -> BridgeSet
        ensures { MembersAre result.bits (joined (meaning self.now) b.value) }
    {
        let mut found = BridgeSet::empty();
        // Stays: at `.filter_map(BridgeId::new).filter(..).fold(BridgeSet::empty(), BridgeSet::with)` the check leaves `returns` open:
        // what the fold holds. The cast is of a constant, and no From narrows a usize.
        for k in 0..MOST_BRIDGES as u8 {
            let c = BridgeId::new(k).unwrap();
            if self.is_joined(b, c) {
                found = found.with(c);
            }
        }
        found
    }
}
