// The kinds of messages.
ghost use Rattle.wire.specs.Bytes.{whole};
ghost use Rattle.wire.specs.Kinds.{byte_of, NamesNoKind};
ghost use Rattle.wire.specs.declared.fault.Fault.TheVariants.{Malformed};
ghost use Rattle.std.specs.Prelude.{◌≡◌, true, false, MatchResult, slice_index};

use crate::{Fault, Reader, is_whole};

// What a message is, which its first byte says.
#[derive(Clone, Copy, PartialEq, Eq, Debug)]
pub enum Kind {
    Frame = 1,
    Hello = 2,
    LinkState = 3,
    Tree = 4,
    Ack = 5,
    Settings = 6,
}

impl Kind {
    // The kind of a message, by its first byte.
    pub fn of(bytes: &[u8]) -> Result<Kind, Fault>
        ensures { MatchResult result (λ kind. slice_index bytes.now 0 ≡ byte_of kind) (λ e. (e ≡ Malformed) × NamesNoKind (slice_index bytes.now 0)) }
    {
        Kind::try_from(*bytes.first().ok_or(Fault::Malformed)?)
    }

    // A reader of what stands behind the kind, if the bytes are a whole message of this kind and length.
    pub fn open(self, bytes: &[u8], length: usize) -> Result<Reader<'_>, Fault>
        ensures { MatchResult result (λ r. (whole (byte_of self) length bytes.now ≡ true) × (r.bytes.now ≡ bytes.now) × (r.pos ≡ 1)) (λ e. (whole (byte_of self) length bytes.now ≡ false) × (e ≡ Malformed)) }
    {
        if !self.is_whole(bytes, length) {
            return Err(Fault::Malformed);
        }
        Ok(Reader::at(bytes, 1))
    }

    // The first byte of each message of this kind.
    pub fn byte(self) -> u8
        ensures { result ≡ byte_of self }
    {
        self as u8
    }

    // Are the bytes whole, a message of this kind and length with its sum?
    pub fn is_whole(self, bytes: &[u8], length: usize) -> bool
        ensures { result ≡ whole (byte_of self) length bytes.now }
    {
        is_whole(bytes, self.byte(), length)
    }
}

impl TryFrom<u8> for Kind {
    type Error = Fault;

    ghost try_from_gives = { λ byte r. MatchResult r (λ kind. byte ≡ byte_of kind) (λ e. (e ≡ Malformed) × NamesNoKind byte) };

    fn try_from(byte: u8) -> Result<Kind, Fault> {
        match byte {
            1 => Ok(Kind::Frame),
            2 => Ok(Kind::Hello),
            3 => Ok(Kind::LinkState),
            4 => Ok(Kind::Tree),
            5 => Ok(Kind::Ack),
            6 => Ok(Kind::Settings),
            _ => Err(Fault::Malformed),
        }
    }
}
