// What a script lacks where it can't be read on.
ghost use Rattle.std.specs.Prelude.{◌≡◌, Some};
ghost use Rattle.script.specs.Faults.{words_for};

use std::error::Error;
use std::fmt;

/// What was expected where a line is at fault, to tell its author.
#[derive(Clone, Copy, PartialEq, Eq, Debug)]
pub enum Expected {
    Text,
    Command,
    BoxNumber,
    PortCount,
    BridgeNumber,
    PortName,
    Vlan,
    Name,
    Address,
    Message,
    Ticks,
    Packets,
    End,
    NewBox,
    BoxThere,
    PortThere,
    FreePort,
    AccessPort,
    CableThere,
    NewName,
    NewAddress,
    StationThere,
    StationRoom,
    BoxOn,
    BoxOff,
    Sequence,
    Parents,
}

impl fmt::Display for Expected {
    ghost output = { λ e. Some (words_for e) };

    fn fmt<W: fmt::Write>(&self, f: &mut fmt::Formatter<W>) -> fmt::Result {
        f.write_str(self.words())
    }
}

impl Error for Expected {}

impl Expected {
    /// The words that say what was expected, as they are printed.
    pub fn words(self) -> &'static str
        ensures { result.now ≡ words_for self }
    {
        match self {
            Expected::Text => "printed characters of ASCII",
            Expected::Command => "a command",
            Expected::BoxNumber => "a box from 0 to 5",
            Expected::PortCount => "a number of ports from 1 to 16",
            Expected::BridgeNumber => "a bridge number from 0 to 127",
            Expected::PortName => "a port, as BOX.PORT",
            Expected::Vlan => "a VLAN from 1 to 4094",
            Expected::Name => "a name of 1 to 16 letters, digits or '-', and not 'all'",
            Expected::Address =>
                "an address of six hex pairs with colons, whose first byte is even",
            Expected::Message => "a text of 2 to 1500 bytes",
            Expected::Ticks => "a number of ticks from 1 to 100000",
            Expected::Packets => "a number of packets from 1 to 1000",
            Expected::End => "the end of the line",
            Expected::NewBox => "a box that is not there yet",
            Expected::BoxThere => "a box that is there",
            Expected::PortThere => "a port that is there, as BOX.PORT",
            Expected::FreePort => "a port that is free",
            Expected::AccessPort => "an access port",
            Expected::CableThere => "a cable that is there",
            Expected::NewName => "a name that no station has yet",
            Expected::NewAddress => "an address that no station has yet",
            Expected::StationThere => "a station that is there",
            Expected::StationRoom => "no more than 32 stations",
            Expected::BoxOn => "a box that is on",
            Expected::BoxOff => "a box that is off",
            Expected::Sequence => "a sequence number from 1 to 1000",
            Expected::Parents => "a word of 1 to 6 digits from 0 to 5",
        }
    }
}
