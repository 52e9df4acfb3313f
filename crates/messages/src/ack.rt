// Acknowledgements: that a bridge has a link state or a tree.
ghost use Rattle.std.specs.Prelude.{◌≡◌, ◌++◌, length, is_ok, if◌then◌else◌};
ghost use Rattle.messages.specs.Acks.{DecodesAck, DecodesLinkStateAck, DecodesTreeAck, ack_bytes, ack_head, acked_link_state};
ghost use Rattle.wire.specs.Kinds.{byte_of};

use sets::BridgeId;
use std::alloc::AllocError;
use trees::TreeId;
use wire::{Count, Fault, Kind, Reader, append_summed, tree_id_bytes};

// What a bridge has: the link state of a bridge, named by that bridge's start and count, or the tree with a number.
#[derive(Clone, Copy)]
pub enum Acked {
    LinkState(BridgeId, u32, Count),
    Tree(TreeId),
}

// What a bridge has, and the number of its own start: after a restart it has nothing.
#[derive(Clone, Copy)]
pub struct Ack {
    pub incarnation: u32,
    pub acked: Acked,
}

impl Ack {
    // What the bytes say, if they are an acknowledgement.
    pub fn decode(bytes: &[u8]) -> Result<Ack, Fault>
        ensures { DecodesAck bytes.now result }
    {
        if Kind::Ack.is_whole(bytes, 21) {
            return of_link_state(bytes);
        }
        if Kind::Ack.is_whole(bytes, 18) {
            return of_tree(bytes);
        }
        Err(Fault::Malformed)
    }

    // Appends the acknowledgement's bytes, or nothing where there is no room.
    pub fn encode(self, out: &mut Vec<u8>) -> Result<(), AllocError>
        ensures { out.new.items ≡ (if is_ok result then out.old.items ++ ack_bytes self else out.old.items) }
    {
        match self.acked {
            Acked::LinkState(bridge, incarnation, count) => {
                let named = link_state_bytes(bridge, incarnation, count);
                append_summed(out, &head(self.incarnation, Kind::LinkState), &named)
            }
            Acked::Tree(id) => append_summed(
                out,
                &head(self.incarnation, Kind::Tree),
                &tree_id_bytes(id),
            ),
        }
    }
}

// An acknowledgement of a link state.
fn of_link_state(bytes: &[u8]) -> Result<Ack, Fault>
    requires { length bytes.now ≡ 21 }
    ensures { DecodesLinkStateAck bytes.now result }
{
    let mut reader = Reader::at(bytes, 1);
    let incarnation = reader.four()?;
    if Kind::try_from(reader.byte()?)? != Kind::LinkState {
        return Err(Fault::Malformed);
    }
    let bridge = reader.bridge()?;
    let of = reader.four()?;
    let count = reader.count()?;
    Ok(Ack {
        incarnation,
        acked: Acked::LinkState(bridge, of, count),
    })
}

// An acknowledgement of a tree.
fn of_tree(bytes: &[u8]) -> Result<Ack, Fault>
    requires { length bytes.now ≡ 18 }
    ensures { DecodesTreeAck bytes.now result }
{
    let mut reader = Reader::at(bytes, 1);
    let incarnation = reader.four()?;
    if Kind::try_from(reader.byte()?)? != Kind::Tree {
        return Err(Fault::Malformed);
    }
    let id = reader.tree_id()?;
    Ok(Ack {
        incarnation,
        acked: Acked::Tree(id),
    })
}

// The bytes before what is acknowledged.
// Stays: put together by letters, since no type can name an array whose length is a sum.
fn head(incarnation: u32, acked: Kind) -> [u8; 6]
    ensures { result ≡ ack_head incarnation (byte_of acked) }
{
    let [a, b, c, d] = incarnation.to_be_bytes();
    [Kind::Ack.byte(), a, b, c, d, acked.byte()]
}

// The bytes that name a link state.
// Stays: put together by letters, since no type can name an array whose length is a sum.
fn link_state_bytes(bridge: BridgeId, incarnation: u32, count: Count) -> [u8; 11]
    ensures { result ≡ acked_link_state bridge incarnation count }
{
    let [a, b, c, d] = incarnation.to_be_bytes();
    let [_, _, e, f, g, h, i, j] = count.value().to_be_bytes();
    [bridge.value(), a, b, c, d, e, f, g, h, i, j]
}
