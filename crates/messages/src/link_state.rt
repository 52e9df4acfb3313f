// Link states: which neighbours a bridge has.
ghost use Rattle.std.specs.Prelude.{◌≡◌, ◌++◌, is_ok, if◌then◌else◌};
ghost use Rattle.messages.specs.LinkStates.{DecodesLinkState, link_state_bytes, link_state_head};

use sets::{BridgeId, BridgeSet};
use std::alloc::AllocError;
use wire::{Count, Fault, Kind, append_summed};

// What a bridge says of itself: the neighbours to which its links are up, with a count by which the newer of two is told.
#[derive(Clone, Copy)]
pub struct LinkState {
    pub bridge: BridgeId,
    pub incarnation: u32,
    pub count: Count,
    pub neighbours: BridgeSet,
}

impl LinkState {
    // What the bytes say, if they are a link state.
    pub fn decode(bytes: &[u8]) -> Result<LinkState, Fault>
        ensures { DecodesLinkState bytes.now result }
    {
        let mut reader = Kind::LinkState.open(bytes, 32)?;
        let bridge = reader.bridge()?;
        let incarnation = reader.four()?;
        let count = reader.count()?;
        let neighbours = reader.array()?;
        Ok(LinkState {
            bridge,
            incarnation,
            count,
            neighbours: BridgeSet::from_bytes(neighbours),
        })
    }

    // Appends the link state's bytes, or nothing where there is no room.
    pub fn encode(self, out: &mut Vec<u8>) -> Result<(), AllocError>
        ensures { out.new.items ≡ (if is_ok result then out.old.items ++ link_state_bytes self else out.old.items) }
    {
        append_summed(out, &self.head(), &self.neighbours.to_bytes())
    }

    // All that stands before the neighbours.
    // Stays: put together by letters, since no type can name an array whose length is a sum.
    fn head(self) -> [u8; 12]
        ensures { result ≡ link_state_head self }
    {
        let [a, b, c, d] = self.incarnation.to_be_bytes();
        let [_, _, e, f, g, h, i, j] = self.count.value().to_be_bytes();
        let kind = Kind::LinkState.byte();
        [kind, self.bridge.value(), a, b, c, d, e, f, g, h, i, j]
    }
}
