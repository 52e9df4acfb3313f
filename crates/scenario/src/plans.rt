// Trees as a script names them: for each box the one above it.
ghost use Rattle.std.specs.Prelude.{◌≡◌};
ghost use Rattle.scenario.specs.Plans.{there, above_box, depth_of, own_row, spread_one, spread, parent_row, depth_row, number_above, Planned};

use std::array;
use trees::{Tree, TreeFault, TreeId};
use wiring::boxes::{Power, Wiring};

/// Says whether a box is there, on or off.
fn is_there(wiring: &Wiring, node: u8) -> bool
    ensures { result ≡ there wiring.now.nodes node }
{
    wiring.power(node) != Power::Absent
}

/// What a script says of a tree: in which wiring, and for each box the one above it.
#[derive(Clone, Copy)]
struct Plan<'a> {
    wiring: &'a Wiring,
    parents: &'a [u8; 6],
}

impl Plan<'_> {
    /// The box above a box: itself where none is named that is there.
    fn above_box(&self, node: u8) -> u8
        ensures { result ≡ above_box self.now.wiring.now.nodes self.now.parents.now node }
    {
        let Plan { wiring, parents } = *self;
        let named = parents.get(usize::from(node)).copied();
        named
            .filter(|above| is_there(wiring, *above))
            .unwrap_or(node)
    }

    /// How many boxes stand above a box, up to the top; 6 where there is no top.
    fn depth_of(&self, node: u8) -> u8
        ensures { result ≡ depth_of 6 self.now.wiring.now.nodes self.now.parents.now node }
    {
        let mut at = node;
        let mut depth = 0u8;
        // Stays: a fold over six steps would hand on a pair, the place and the depth, and read longer.
        for _step in 0..6u8 {
            let above = self.above_box(at);
            depth += u8::from(above != at);
            at = above;
        }
        depth
    }

    /// The number of the bridge above the one in a box.
    fn number_above(&self, node: u8) -> u8
        ensures { result ≡ number_above self.now.wiring.now.nodes self.now.parents.now node }
    {
        self.wiring.number(self.above_box(node))
    }

    /// The bridge above each bridge.
    fn parent_row(&self) -> [u8; 128]
        ensures { result ≡ parent_row self.now.wiring.now.nodes self.now.parents.now }
    {
        let above = array::from_fn(|node| self.number_above(node as u8));
        spread_over(self.wiring, own_row(), &above)
    }

    /// How deep each bridge is.
    fn depth_row(&self) -> [u8; 128]
        ensures { result ≡ depth_row self.now.wiring.now.nodes self.now.parents.now }
    {
        let deep = array::from_fn(|node| self.depth_of(node as u8));
        spread_over(self.wiring, [0; 128], &deep)
    }
}

/// A row in which each bridge stands above itself.
fn own_row() -> [u8; 128]
    ensures { result ≡ own_row }
{
    array::from_fn(|b| b as u8)
}

/// Puts the value of a box that is there at the place of its bridge.
fn spread_one(wiring: &Wiring, row: &mut [u8; 128], node: u8, value: u8)
    ensures { row.new ≡ spread_one wiring.now.nodes node value row.old }
{
    let place = usize::from(wiring.number(node));
    if is_there(wiring, node) && place < row.len() {
        row[place] = value;
    }
}

/// Puts a value of each box that is there at the place of its bridge.
fn spread_over(wiring: &Wiring, row: [u8; 128], values: &[u8; 6]) -> [u8; 128]
    ensures { result ≡ spread 6 wiring.now.nodes values.now row }
{
    let mut filled = row;
    for (node, value) in values.iter().enumerate() {
        spread_one(wiring, &mut filled, node as u8, *value);
    }
    filled
}

/// The tree over all bridges in which each box stands below the one that is named for it.
pub fn tree_over(wiring: &Wiring, id: TreeId, parents: &[u8; 6]) -> Result<Tree, TreeFault>
    ensures { Planned id (parent_row wiring.now.nodes parents.now) (depth_row wiring.now.nodes parents.now) result }
{
    let plan = Plan { wiring, parents };
    let parent = plan.parent_row();
    let depth = plan.depth_row();
    Tree::new(id, parent, depth)
}
