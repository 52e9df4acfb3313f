// A tree that a bridge holds, with what was learnt along it.
use fdb::Table;
use trees::Tree;

// What was learnt along a tree goes with the tree.
#[derive(Drop)]
pub struct Held {
    pub tree: Option<Tree>,
    pub table: Table,
}
