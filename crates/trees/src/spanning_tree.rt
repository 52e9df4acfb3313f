// A tree over bridges.
mod joined;

ghost use Rattle.std.specs.Prelude.{◌≡◌, true};
ghost use Rattle.trees.specs.Tree.{looks};
ghost use Rattle.trees.specs.Ids.{id_number};
ghost use Rattle.trees.specs.Shapes.{shaped, Named};

use crate::TreeId;
use sets::MOST_BRIDGES;

// A tree over all bridges, and never anything else: rows that are none are refused when it is made. Lent, since it is large.
#[derive(Clone, Copy)]
pub struct Tree {
    id: TreeId,
    // Stays: no row of pairs, since `meaning`, `shaped` and the clauses of `Tree::new` speak of a row of parents and one of depths.
    parent: [u8; MOST_BRIDGES],
    depth: [u8; MOST_BRIDGES],
    ghost named: { Named parent },
    ghost shape: { looks 128 (shaped (id_number id) parent depth) ≡ true },
}
