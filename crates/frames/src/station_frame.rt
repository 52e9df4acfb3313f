// Frames of stations, as they come and go by an access port.
ghost use Rattle.std.specs.Prelude.{◌≡◌, Decides};
ghost use Rattle.frames.specs.StationFrames.{DecodesStationFrame, ReadsAtAccess};

use wire::{Fault, Kind, Reader};

// Whom a frame is for, whom it is from, and the whole of it as it came: it is handed on as a part of what came.
#[derive(Clone, Copy)]
pub struct StationFrame<'a> {
    pub to: [u8; 6],
    pub from: [u8; 6],
    pub bytes: &'a [u8],
}

impl<'a> StationFrame<'a> {
    // What the bytes say, if they are a station's frame.
    pub fn decode(bytes: &'a [u8]) -> Result<StationFrame<'a>, Fault>
        ensures { DecodesStationFrame bytes.now result }
    {
        if bytes.len() < 14 || bytes.len() > 1512 {
            return Err(Fault::Malformed);
        }
        if bytes[6] % 2 == 1 {
            return Err(Fault::GroupSender);
        }
        let mut reader = Reader::at(bytes, 0);
        let to = reader.array()?;
        let from = reader.array()?;
        Ok(StationFrame { to, from, bytes })
    }
}

// What can come by an access port: a station's frame, or a whole hello, which shows that a bridge is at the other end.
// Stays: an Option<StationFrame> would name no hello.
#[derive(Clone, Copy)]
pub enum AtAccess<'a> {
    Hello,
    Frame(StationFrame<'a>),
}

// What the bytes are at an access port: a hello is looked for first, whatever bridge it names.
pub fn read_at_access(bytes: &[u8]) -> Result<AtAccess<'_>, Fault>
    ensures { ReadsAtAccess bytes.now result }
{
    if Kind::Hello.is_whole(bytes, 14) {
        return Ok(AtAccess::Hello);
    }
    let frame = StationFrame::decode(bytes)?;
    Ok(AtAccess::Frame(frame))
}

// Are the addresses one?
// Stays: public; addresses are strings of bytes, and `==` on the arrays says the same.
pub fn same_address(a: &[u8; 6], b: &[u8; 6]) -> bool
    ensures { Decides result (a.now ≡ b.now) }
{
    a == b
}
