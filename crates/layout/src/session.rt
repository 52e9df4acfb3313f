// A script read line by line, up to its first fault.
ghost use Rattle.std.specs.Prelude.{◌≡◌, ◌<◌, true, length, is_some, IfOk, ⊤};
ghost use Rattle.std.specs.Iterator.{MakesProgress, item_count};
ghost use Rattle.layout.specs.Net.{state_of, empty_state};
ghost use Rattle.layout.specs.Session.{line_in, after_line, unread_of, Reads, Stepped};

use crate::net::Layout;
use scan::bytes::{Kind, run};
use script::faults::Expected;
use script::lines::{Command, read_line};
use std::alloc::{AllocError, Global};
use std::error::Error;
use std::fmt;

/// The number of a fault in a script, for all kinds of them.
pub const FAULT: u8 = 10;

/// Where a script is at fault, and what was expected there.
#[derive(Clone, Copy, PartialEq, Eq, Debug)]
pub struct Fault {
    pub line: u64,
    pub expected: Expected,
}

impl fmt::Display for Fault {
    ghost use Rattle.std.specs.Prelude.{Some};
    ghost use Rattle.layout.specs.Session.{told};

    ghost output = { λ f. Some (told f) };

    fn fmt<W: fmt::Write>(&self, f: &mut fmt::Formatter<W>) -> fmt::Result {
        let Fault { line, expected } = self;
        write!(f, "line {line}: fault {FAULT}: expected {expected}")
    }
}

impl Error for Fault {}

/// A script that is being read, with the net that it has described so far.
#[derive(Drop)]
pub struct Session<'a> {
    rest: &'a [u8],
    line: u64,
    layout: Layout,
}

/// The line in front of a text, and what stands after it.
fn split_line(text: &[u8]) -> (&[u8], &[u8])
    ensures line { result.0.now ≡ line_in text.now }
    ensures rest { result.1.now ≡ after_line text.now }
{
    let (line, rest) = text.split_at(run(text, Kind::Line));
    (line, rest.get(1..).unwrap_or(&[]))
}

/// Reads a line and does what it says.
fn step<'a>(layout: &mut Layout, line: &'a [u8]) -> Result<Command<'a>, Expected>
    ensures { Stepped (state_of layout.old) line.now result (state_of layout.new) }
{
    let command = read_line(line)?;
    layout.apply(command)?;
    Ok(command)
}

impl<'a> Session<'a> {
    /// A script that is not read yet.
    pub fn new(heap: Global, text: &'a [u8]) -> Result<Session<'a>, AllocError>
        ensures { IfOk result (λ s. (s.rest.now ≡ text.now) × (s.line ≡ 0) × (state_of s.layout ≡ empty_state)) }
    {
        let layout = Layout::new(heap)?;
        Ok(Session {
            rest: text,
            line: 0,
            layout,
        })
    }

    /// The net so far.
    pub fn layout(&self) -> &Layout
        ensures { result.now ≡ self.now.layout }
    {
        &self.layout
    }

    /// The number of the line that was read last.
    pub fn line(&self) -> u64
        ensures { result ≡ self.now.line }
    {
        self.line
    }
}

impl<'a> Iterator for Session<'a> {
    type Item = Result<Command<'a>, Fault>;

    ghost next_gives = { Reads };

    ghost remaining = { item_count unread_of };

    /// Reads the next line: its command, or the fault after which nothing is read.
    fn next(&mut self) -> Option<Result<Command<'a>, Fault>>
        ensures reads { Reads self.old result self.new }
        ensures shorter { is_some result ≡ true → length (unread_of self.new) < length (unread_of self.old) }
        ensures goes { MakesProgress (λ _. ⊤) (item_count unread_of) self.old result self.new }
    {
        if self.rest.is_empty() {
            return None;
        }
        let (line, rest) = split_line(self.rest);
        self.rest = rest;
        self.line = self.line.saturating_add(1);
        // Stays: with `map_err`, and the rest emptied where `is_err` holds, the clause `reads` stays open.
        match step(&mut self.layout, line) {
            Ok(command) => Some(Ok(command)),
            Err(expected) => {
                self.rest = &[];
                Some(Err(Fault {
                    line: self.line,
                    expected,
                }))
            }
        }
    }
}
