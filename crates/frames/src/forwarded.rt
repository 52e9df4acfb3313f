// Frames between bridges: a station's frame behind a header that says along which tree it goes.
ghost use Rattle.std.specs.Prelude.{◌≡◌, ◌≤◌, ◌++◌, is_ok, if◌then◌else◌};
ghost use Rattle.frames.specs.ForwardedFrames.{DecodesForwarded, DecodesHeader, forwarded_bytes, frame_in, header_bytes};
ghost use Rattle.frames.specs.StationFrames.{DecodesStationFrame};

use crate::StationFrame;
use sets::BridgeId;
use std::alloc::AllocError;
use trees::TreeId;
use wire::{Fault, Kind, Reader, append_summed, is_summed, tree_id_bytes};

// The bridge that a frame is handed on by, the one that it is for, its tree, and the vlan that it came from. The frame itself is lent on by `inner_frame`.
#[derive(Clone, Copy)]
pub struct Header {
    pub by: BridgeId,
    pub next: BridgeId,
    pub tree: TreeId,
    pub vlan: u16,
}

impl Header {
    // What the header says, if the bytes are a frame between bridges.
    pub fn decode(bytes: &[u8]) -> Result<Header, Fault>
        ensures { DecodesForwarded bytes.now result }
    {
        if Kind::of(bytes)? != Kind::Frame || !is_summed(bytes) {
            return Err(Fault::Malformed);
        }
        inner_frame(bytes)?;
        Header::named_in(bytes)
    }

    // What the header's bytes say, if all that they name is there.
    fn named_in(bytes: &[u8]) -> Result<Header, Fault>
        ensures { DecodesHeader bytes.now result }
    {
        if bytes.len() < 13 {
            return Err(Fault::Malformed);
        }
        let mut reader = Reader::at(bytes, 1);
        let by = reader.bridge()?;
        let next = reader.bridge()?;
        let tree = reader.tree_id()?;
        let vlan = reader.two()?;
        if vlan == 0 || vlan > 4094 {
            return Err(Fault::NotThere);
        }
        Ok(Header {
            by,
            next,
            tree,
            vlan,
        })
    }

    // Appends the bytes of a station's frame behind this header, or nothing where there is no room.
    pub fn encode(self, frame: &[u8], out: &mut Vec<u8>) -> Result<(), AllocError>
        ensures { out.new.items ≡ (if is_ok result then out.old.items ++ forwarded_bytes self frame.now else out.old.items) }
    {
        append_summed(out, &self.head(), frame)
    }

    // The header's bytes.
    // Stays: put together by letters, since no type can name an array whose length is a sum.
    fn head(self) -> [u8; 13]
        ensures { result ≡ header_bytes self }
    {
        let [a, b, c, d, e, f, g, h] = tree_id_bytes(self.tree);
        let [i, j] = self.vlan.to_be_bytes();
        [
            Kind::Frame.byte(),
            self.by.value(),
            self.next.value(),
            a,
            b,
            c,
            d,
            e,
            f,
            g,
            h,
            i,
            j,
        ]
    }
}

// The station's frame inside a frame between bridges, lent on as a part of what came.
pub fn inner_frame(bytes: &[u8]) -> Result<StationFrame<'_>, Fault>
    ensures { DecodesStationFrame (frame_in bytes.now) result }
{
    if bytes.len() < 31 {
        return Err(Fault::Malformed);
    }
    let mut reader = Reader::at(bytes, 13);
    let inner = reader.part(bytes.len() - 17)?;
    StationFrame::decode(inner)
}
