// One line of a script, read into a command.
ghost use Rattle.std.specs.Prelude.{◌≡◌, ℕ, ◌-◌, ◌≤◌, length, IfOk, Ok, Err, MatchResult, None, Some, MatchOption};
ghost use Rattle.std.specs.List.{suffix_len};
ghost use Rattle.scan.specs.Bytes.{between, is_of};
ghost use Rattle.scan.specs.Words.{after_of, skipped};
ghost use Rattle.scan.specs.Parts.{number_in, port_of, name_of, address_of, parents_of};
ghost use Rattle.script.specs.Grammar.{IsPart, part, tail, ended, told, aimed, aim_of, text_of, text_in, send_of, said_by, code_of, command_of, bridge_of, access_of, station_of, move_of, tick_of, lose_of, one_box_of, two_ports_of, tree_of, adopt_of};
ghost use Rattle.scan.specs.Reading.{left, unread};

use crate::faults::Expected;
use crate::verbs::Verb;
use scan::bytes::{Kind, all_of, is_of, run};
use scan::parts::{PortRef, address, is_name, number, parents, port};
use scan::reader::Words;

/// To whom a station sends.
// Stays: it has the shape of Option, but None would not say "to all".
#[derive(Clone, Copy, PartialEq, Eq, Debug)]
pub enum Target<'a> {
    All,
    Station(&'a [u8]),
}

/// A command of a script. Names and texts are parts of its line.
#[derive(Clone, Copy, PartialEq, Eq, Debug)]
pub enum Command<'a> {
    Blank,
    Bridge {
        node: u8,
        ports: u8,
        number: u8,
    },
    Access {
        port: PortRef,
        vlan: u16,
    },
    Cable {
        one: PortRef,
        other: PortRef,
    },
    Pull {
        one: PortRef,
        other: PortRef,
    },
    Station {
        name: &'a [u8],
        address: [u8; 6],
        port: PortRef,
    },
    Move {
        name: &'a [u8],
        port: PortRef,
    },
    Send {
        from: &'a [u8],
        to: Target<'a>,
        text: &'a [u8],
    },
    Tick {
        ticks: u32,
    },
    Lose {
        port: PortRef,
        packets: u32,
    },
    Fall {
        node: u8,
    },
    Start {
        node: u8,
    },
    Rest,
    Tree {
        seq: u32,
        node: u8,
        parents: [u8; 6],
    },
    Adopt {
        node: u8,
        seq: u32,
    },
}

/// Takes the next word, and reads a part of a command from it.
// Stays: `after` stands again at each reader below, since a definition over value and rest would take the function and the fault as well.
fn next_part<'a, T, F: FnOnce(&'a [u8]) -> Option<T>>(
    words: &mut Words<'a>,
    expected: Expected,
    read: F,
) -> Result<T, Expected>
    requires { F.IsAlwaysCallable read }
    ensures value { IsPart (F.post read) expected (left words.old) result }
    ensures after { left words.new ≡ tail (left words.old) }
    ensures rest { unread words.new ≡ after_of (unread words.old) }
{
    words.next().and_then(read).ok_or(expected)
}

/// Takes a number between two limits.
fn next_number(
    words: &mut Words<'_>,
    low: u32,
    high: u32,
    expected: Expected,
) -> Result<u32, Expected>
    ensures value { result ≡ part (number_in low high) expected (left words.old) }
    ensures bound { IfOk result (λ n. (low ≤ n) × (n ≤ high)) }
    ensures after { left words.new ≡ tail (left words.old) }
{
    next_part(words, expected, |word| number(word, low, high))
}

/// Takes a box.
fn next_box(words: &mut Words<'_>) -> Result<u8, Expected>
    ensures value { result ≡ part (number_in 0 5) Expected.BoxNumber (left words.old) }
    ensures after { left words.new ≡ tail (left words.old) }
{
    let node = next_number(words, 0, 5, Expected::BoxNumber)?;
    Ok(node as u8)
}

/// Takes a sequence number.
fn next_sequence(words: &mut Words<'_>) -> Result<u32, Expected>
    ensures value { result ≡ part (number_in 1 1000) Expected.Sequence (left words.old) }
    ensures after { left words.new ≡ tail (left words.old) }
{
    next_number(words, 1, 1000, Expected::Sequence)
}

/// Takes a port.
fn next_port(words: &mut Words<'_>) -> Result<PortRef, Expected>
    ensures value { result ≡ part port_of Expected.PortName (left words.old) }
    ensures after { left words.new ≡ tail (left words.old) }
{
    next_part(words, Expected::PortName, port)
}

/// Takes an address.
fn next_address(words: &mut Words<'_>) -> Result<[u8; 6], Expected>
    ensures value { result ≡ part address_of Expected.Address (left words.old) }
    ensures after { left words.new ≡ tail (left words.old) }
{
    next_part(words, Expected::Address, address)
}

/// Takes the box above each box.
fn next_parents(words: &mut Words<'_>) -> Result<[u8; 6], Expected>
    ensures value { result ≡ part parents_of Expected.Parents (left words.old) }
    ensures after { left words.new ≡ tail (left words.old) }
{
    next_part(words, Expected::Parents, parents)
}

/// Reads the name of a station.
fn name(word: &[u8]) -> Option<&[u8]>
    ensures { MatchOption result (name_of word.now ≡ None) (λ w. name_of word.now ≡ Some w.now) }
{
    is_name(word).then_some(word)
}

/// Takes the name of a station.
fn next_name<'a>(words: &mut Words<'a>) -> Result<&'a [u8], Expected>
    ensures value { MatchResult result (λ w. part name_of Expected.Name (left words.old) ≡ Ok w.now) (λ e. part name_of Expected.Name (left words.old) ≡ Err e) }
    ensures after { left words.new ≡ tail (left words.old) }
    ensures rest { unread words.new ≡ after_of (unread words.old) }
{
    next_part(words, Expected::Name, name)
}

/// Reads the name of a station, or the word for all of them.
fn aim(word: &[u8]) -> Option<Target<'_>>
    ensures { MatchOption result (aim_of word.now ≡ None) (λ t. aim_of word.now ≡ Some (aimed t)) }
{
    match word {
        b"all" => Some(Target::All),
        _ => name(word).map(Target::Station),
    }
}

/// Takes the name of a station, or the word for all of them.
fn next_target<'a>(words: &mut Words<'a>) -> Result<Target<'a>, Expected>
    ensures value { MatchResult result (λ t. part aim_of Expected.Name (left words.old) ≡ Ok (aimed t)) (λ e. part aim_of Expected.Name (left words.old) ≡ Err e) }
    ensures rest { unread words.new ≡ after_of (unread words.old) }
{
    next_part(words, Expected::Name, aim)
}

/// Says whether a text fits a frame.
fn is_text(text: &[u8]) -> bool
    ensures { result ≡ between 2 1500 (length text.now) }
{
    (2..=1500).contains(&text.len())
}

/// Takes the rest of the line as a text.
fn next_text<'a>(words: &mut Words<'a>) -> Result<&'a [u8], Expected>
    ensures { MatchResult result (λ t. text_of (skipped (unread words.old)) ≡ Ok t.now) (λ e. text_of (skipped (unread words.old)) ≡ Err e) }
{
    words.skip();
    let text = words.rest();
    is_text(text).then_some(text).ok_or(Expected::Message)
}

/// Sees that no word is left.
fn at_end(words: &mut Words<'_>) -> Result<(), Expected>
    ensures { MatchResult result (λ _. ended (left words.old) ≡ Ok tt) (λ e. ended (left words.old) ≡ Err e) }
{
    words.next().is_none().then_some(()).ok_or(Expected::End)
}

/// Takes the box that is the rest of a command.
fn one_box(words: &mut Words<'_>) -> Result<u8, Expected>
    ensures { result ≡ one_box_of (left words.old) }
{
    let node = next_box(words)?;
    at_end(words)?;
    Ok(node)
}

/// Takes the two ports that are the rest of a command.
fn two_ports(words: &mut Words<'_>) -> Result<(PortRef, PortRef), Expected>
    ensures { result ≡ two_ports_of (left words.old) }
{
    let one = next_port(words)?;
    let other = next_port(words)?;
    at_end(words)?;
    Ok((one, other))
}

fn access<'a>(words: &mut Words<'a>) -> Result<Command<'a>, Expected>
    ensures { told result ≡ access_of (left words.old) }
{
    let port = next_port(words)?;
    let vlan = next_number(words, 1, 4094, Expected::Vlan)? as u16;
    at_end(words)?;
    Ok(Command::Access { port, vlan })
}

fn bridge<'a>(words: &mut Words<'a>) -> Result<Command<'a>, Expected>
    ensures { told result ≡ bridge_of (left words.old) }
{
    let node = next_box(words)?;
    let ports = next_number(words, 1, 16, Expected::PortCount)? as u8;
    // Stays: a line that ends here is no fault, so what the reader gives is taken apart by `let .. else`.
    let Some(word) = words.next() else {
        return Ok(Command::Bridge {
            node,
            ports,
            number: node,
        });
    };
    if !matches!(word, b"as") {
        return Err(Expected::End);
    }
    let number = next_number(words, 0, 127, Expected::BridgeNumber)? as u8;
    at_end(words)?;
    Ok(Command::Bridge {
        node,
        ports,
        number,
    })
}

fn station<'a>(words: &mut Words<'a>) -> Result<Command<'a>, Expected>
    ensures { told result ≡ station_of (left words.old) }
{
    let name = next_name(words)?;
    let address = next_address(words)?;
    let port = next_port(words)?;
    at_end(words)?;
    Ok(Command::Station {
        name,
        address,
        port,
    })
}

fn relocate<'a>(words: &mut Words<'a>) -> Result<Command<'a>, Expected>
    ensures { told result ≡ move_of (left words.old) }
{
    let name = next_name(words)?;
    let port = next_port(words)?;
    at_end(words)?;
    Ok(Command::Move { name, port })
}

fn send<'a>(words: &mut Words<'a>) -> Result<Command<'a>, Expected>
    ensures { told result ≡ send_of (left words.old) (text_in (unread words.old)) }
{
    let from = next_name(words)?;
    let to = next_target(words)?;
    let text = next_text(words)?;
    Ok(Command::Send { from, to, text })
}

fn tick<'a>(words: &mut Words<'a>) -> Result<Command<'a>, Expected>
    ensures { told result ≡ tick_of (left words.old) }
{
    let ticks = next_number(words, 1, 100_000, Expected::Ticks)?;
    at_end(words)?;
    Ok(Command::Tick { ticks })
}

fn lose<'a>(words: &mut Words<'a>) -> Result<Command<'a>, Expected>
    ensures { told result ≡ lose_of (left words.old) }
{
    let port = next_port(words)?;
    let packets = next_number(words, 1, 1000, Expected::Packets)?;
    at_end(words)?;
    Ok(Command::Lose { port, packets })
}

fn tree<'a>(words: &mut Words<'a>) -> Result<Command<'a>, Expected>
    ensures { told result ≡ tree_of (left words.old) }
{
    let seq = next_sequence(words)?;
    let node = next_box(words)?;
    let parents = next_parents(words)?;
    at_end(words)?;
    Ok(Command::Tree { seq, node, parents })
}

fn adopt<'a>(words: &mut Words<'a>) -> Result<Command<'a>, Expected>
    ensures { told result ≡ adopt_of (left words.old) }
{
    let node = next_box(words)?;
    let seq = next_sequence(words)?;
    at_end(words)?;
    Ok(Command::Adopt { node, seq })
}

/// Reads what follows the first word of a command.
fn read_command<'a>(verb: Verb, words: &mut Words<'a>) -> Result<Command<'a>, Expected>
    ensures { told result ≡ said_by verb (left words.old) (text_in (unread words.old)) }
{
    // Stays: a table of functions would need one contract for all, which is `said_by verb` again.
    match verb {
        Verb::Bridge => bridge(words),
        Verb::Access => access(words),
        Verb::Cable => two_ports(words).map(|(one, other)| Command::Cable { one, other }),
        Verb::Pull => two_ports(words).map(|(one, other)| Command::Pull { one, other }),
        Verb::Station => station(words),
        Verb::Move => relocate(words),
        Verb::Send => send(words),
        Verb::Tick => tick(words),
        Verb::Lose => lose(words),
        Verb::Fall => one_box(words).map(|node| Command::Fall { node }),
        Verb::Start => one_box(words).map(|node| Command::Start { node }),
        Verb::Rest => at_end(words).map(|()| Command::Rest),
        Verb::Tree => tree(words),
        Verb::Adopt => adopt(words),
    }
}

/// How many bytes at the end are blanks.
fn blanks_at_end(bytes: &[u8]) -> usize
    ensures value { result ≡ suffix_len (is_of Kind.Blank) bytes.now }
    ensures within { result ≤ length bytes.now }
{
    let from_end = bytes.iter().rev();
    from_end.take_while(|b| is_of(Kind::Blank, **b)).count()
}

/// A line without its comment, and without the blanks at its end, which are no part of a text.
fn code(line: &[u8]) -> &[u8]
    ensures { result.now ≡ code_of line.now }
{
    let before = &line[..run(line, Kind::Code)];
    &before[..before.len() - blanks_at_end(before)]
}

/// Reads a line: the command that it gives, or what was expected where it is at fault.
pub fn read_line(line: &[u8]) -> Result<Command<'_>, Expected>
    ensures { told result ≡ command_of line.now }
{
    if !all_of(line, Kind::Plain) {
        return Err(Expected::Text);
    }
    let mut words = Words::new(code(line));
    // Stays: an empty line is no fault, so what the reader gives is taken apart by `let .. else`.
    let Some(word) = words.next() else {
        return Ok(Command::Blank);
    };
    read_command(Verb::try_from(word)?, &mut words)
}
