// The number of a tree, which stands in frames, trees and acknowledgements.
ghost use Rattle.wire.specs.TreeIds.{tree_id_bytes};
ghost use Rattle.std.specs.Prelude.{◌≡◌};

use trees::TreeId;

// The eight bytes of a tree's number.
// Stays: neither type is of this crate, so no From; put together by letters, since no type can name an array whose length is a sum.
pub fn tree_id_bytes(id: TreeId) -> [u8; 8]
    ensures { result ≡ tree_id_bytes id }
{
    let [a, b, c, d] = id.seq().to_be_bytes();
    let [_, e, f, g] = id.nonce().to_be_bytes();
    [a, b, c, d, id.announcer().value(), e, f, g]
}
