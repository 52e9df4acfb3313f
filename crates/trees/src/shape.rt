// Whether rows of parents and depths are a tree.
ghost use Rattle.std.specs.Prelude.{◌≡◌, ℕ, ◌<◌, ◌≤◌, MatchBool};
ghost use Rattle.trees.specs.Shapes.{shaped, Named, Unnamed, Hangs};

use sets::MOST_BRIDGES;

// Why parents and depths are no tree.
#[derive(Clone, Copy, PartialEq, Eq, Debug)]
pub enum TreeFault {
    NoSuchBridge,
    NotATree,
}

// Is every parent a bridge?
// Stays: it compares nothing by hand: a test of a whole row, by `all`.
pub(crate) fn is_named(parent: &[u8; MOST_BRIDGES]) -> bool
    ensures { MatchBool result (Named parent.now) (Unnamed parent.now) }
{
    parent
        .iter()
        .all(|above| usize::from(*above) < MOST_BRIDGES)
}

// Is every bridge its own parent, or deeper than its parent?
pub(crate) fn is_tree(parent: &[u8; MOST_BRIDGES], depth: &[u8; MOST_BRIDGES]) -> bool
    requires { Named parent.now }
    ensures { (n : ℕ) → MatchBool result ((b : ℕ) → b < 128 → Hangs (shaped n parent.now depth.now) b) ((b : ℕ) × (b < 128) × ¬ Hangs (shaped n parent.now depth.now) b) }
{
    (0..MOST_BRIDGES).all(|b| {
        let above = usize::from(parent[b]);
        above == b || depth[above] < depth[b]
    })
}
