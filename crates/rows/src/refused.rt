// Why a frame was not taken.

use std::error::Error;
use std::fmt;

// The frame would be longer than the longest.
#[derive(Clone, Copy, PartialEq, Eq, Debug)]
pub struct TooLong;

// A row's reasons.
#[derive(Clone, Copy, PartialEq, Eq, Debug)]
pub enum Refused {
    TooLong,
    NoRoom,
}

impl fmt::Display for TooLong {
    ghost use Rattle.std.specs.Prelude.{Some, codes};

    ghost output = { λ _. Some (codes "the frame is too long") };

    fn fmt<W: fmt::Write>(&self, f: &mut fmt::Formatter<W>) -> fmt::Result {
        f.write_str("the frame is too long")
    }
}

impl fmt::Display for Refused {
    ghost use Rattle.std.specs.Prelude.{Some};
    ghost use Rattle.rows.specs.Refused.{text_of};

    ghost output = { λ r. Some (text_of r) };

    fn fmt<W: fmt::Write>(&self, f: &mut fmt::Formatter<W>) -> fmt::Result {
        match self {
            Refused::TooLong => fmt::Display::fmt(&TooLong, f),
            Refused::NoRoom => f.write_str("no room for another frame"),
        }
    }
}

impl Error for TooLong {}

impl Error for Refused {}
