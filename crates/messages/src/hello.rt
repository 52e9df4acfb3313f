// Hellos: what goes by every port each tick.
ghost use Rattle.std.specs.Prelude.{◌≡◌, ◌++◌, is_ok, if◌then◌else◌};
ghost use Rattle.wire.specs.Bytes.{whole};
ghost use Rattle.messages.specs.Hellos.{DecodesHello, hello_bytes};

use sets::BridgeId;
use std::alloc::AllocError;
use wire::{Fault, Kind, append_summed};

// A bridge's number, the number of its start, and the number of the start that it heard there: so that a neighbour knows that it is heard.
#[derive(Clone, Copy)]
pub struct Hello {
    pub bridge: BridgeId,
    pub incarnation: u32,
    pub heard: u32,
}

impl Hello {
    // What the bytes say, if they are a hello.
    pub fn decode(bytes: &[u8]) -> Result<Hello, Fault>
        ensures { DecodesHello bytes.now result }
    {
        let mut reader = Kind::Hello.open(bytes, 14)?;
        let bridge = reader.bridge()?;
        let incarnation = reader.four()?;
        let heard = reader.four()?;
        Ok(Hello {
            bridge,
            incarnation,
            heard,
        })
    }

    // Appends the hello's bytes, or nothing where there is no room.
    pub fn encode(self, out: &mut Vec<u8>) -> Result<(), AllocError>
        ensures { out.new.items ≡ (if is_ok result then out.old.items ++ hello_bytes self else out.old.items) }
    {
        // Stays: put together by letters, since no type can name an array whose length is a sum.
        let [a, b, c, d] = self.incarnation.to_be_bytes();
        let [e, f, g, h] = self.heard.to_be_bytes();
        let kind = Kind::Hello.byte();
        append_summed(
            out,
            &[kind, self.bridge.value(), a, b, c, d, e, f, g, h],
            &[],
        )
    }
}

// Are the bytes a whole hello, whatever bridge it names? At an access port that alone is looked for.
pub fn is_hello(bytes: &[u8]) -> bool
    ensures { result ≡ whole 2 14 bytes.now }
{
    Kind::Hello.is_whole(bytes, 14)
}
