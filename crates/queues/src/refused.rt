// Why a frame was not taken by a port.
ghost use Rattle.std.specs.Prelude.{◌≡◌};
ghost use Rattle.queues.specs.declared.refused.Refused.TheVariants as refused;

use rows::refused;
use std::error::Error;
use std::fmt;

// The port is not there, or its row did not take the frame.
#[derive(Clone, Copy, PartialEq, Eq, Debug)]
pub enum Refused {
    NoPort,
    ByRow(refused::Refused),
}

impl From<refused::Refused> for Refused {
    ghost from_gives = { λ e r. r ≡ refused.ByRow e };

    fn from(by_row: refused::Refused) -> Refused {
        Refused::ByRow(by_row)
    }
}

impl fmt::Display for Refused {
    ghost use Rattle.std.specs.Prelude.{Some};
    ghost use Rattle.queues.specs.Refused.{text_of};

    ghost output = { λ r. Some (text_of r) };

    fn fmt<W: fmt::Write>(&self, f: &mut fmt::Formatter<W>) -> fmt::Result {
        match self {
            Refused::NoPort => f.write_str("no such port"),
            Refused::ByRow(why) => write!(f, "{why}"),
        }
    }
}

impl Error for Refused {}
