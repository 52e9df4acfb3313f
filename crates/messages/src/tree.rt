// Trees: each bridge's parent and depth, under the tree's number.
ghost use Rattle.std.specs.Prelude.{◌≡◌, ℕ, ◌+◌, ◌*◌, ◌<◌, ◌≤◌, [], ◌∷◌, ◌++◌, length, is_ok, if◌then◌else◌, slice_index, slice_index_or};
ghost use Rattle.messages.specs.TreeBytes.{DecodesTree, row, tree_bytes, tree_head};

use sets::BridgeId;
use std::alloc::AllocError;
use std::array;
use trees::{Tree, TreeId};
use wire::{Fault, Kind, append_summed, tree_id_bytes};

// The tree that the bytes say, if they are one.
pub fn decode_tree(bytes: &[u8]) -> Result<Tree, Fault>
    ensures { DecodesTree bytes.now result }
{
    let mut reader = Kind::Tree.open(bytes, 269)?;
    let id = reader.tree_id()?;
    Ok(Tree::new(id, read_row(bytes, 9), read_row(bytes, 10))?)
}

// Every second byte from a place on: the parents, or the depths.
fn read_row(bytes: &[u8], place: usize) -> [u8; 128]
    requires { place + 255 ≤ length bytes.now }
    ensures { result ≡ row bytes.now place 128 }
{
    array::from_fn(|k| bytes[place + 2 * k])
}

// Appends the tree's bytes, or nothing where there is no room.
pub fn encode_tree(tree: &Tree, out: &mut Vec<u8>) -> Result<(), AllocError>
    ensures { out.new.items ≡ (if is_ok result then out.old.items ++ tree_bytes tree.now else out.old.items) }
{
    append_summed(out, &head(tree.id()), pairs(tree).as_flattened())
}

// The kind and the tree's number.
// Stays: put together by letters, since no type can name an array whose length is a sum.
fn head(id: TreeId) -> [u8; 9]
    ensures { result ≡ tree_head id }
{
    let [a, b, c, d, e, f, g, h] = tree_id_bytes(id);
    [Kind::Tree.byte(), a, b, c, d, e, f, g, h]
}

// Each bridge's parent and depth.
fn pairs(tree: &Tree) -> [[u8; 2]; 128]
    ensures { (k : ℕ) → k < 128 → slice_index_or result k [] ≡ slice_index tree.now.parent k ∷ slice_index tree.now.depth k ∷ [] }
{
    // Stays: by `array::from_fn` the clause stays open: no equation is found for the array that its closure gives.
    let mut cells = [[0; 2]; 128];
    for (k, cell) in cells.iter_mut().enumerate() {
        *cell = pair_of(tree, k);
    }
    cells
}

// A bridge's parent and depth.
fn pair_of(tree: &Tree, k: usize) -> [u8; 2]
    requires { k < 128 }
    ensures { result ≡ slice_index tree.now.parent k ∷ slice_index tree.now.depth k ∷ [] }
{
    let bridge = BridgeId::new(k as u8).unwrap();
    [tree.parent_of(bridge).value(), tree.depth_of(bridge)]
}
