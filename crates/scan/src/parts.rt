// The parts of a command that one word gives: numbers, ports, names and addresses.
ghost use Rattle.std.specs.Prelude.{◌≡◌, ◌≤◌, Some, IfSome};
ghost use Rattle.scan.specs.Parts.{number_in, port_text, port_of, is_name, hex_of, pair_of, address_of, parent_at, parents_of};

use crate::bytes::{Kind, all_of, run};
use std::fmt;

/// A port of a box, as the script names it.
#[derive(Clone, Copy, PartialEq, Eq, PartialOrd, Ord, Hash, Debug)]
pub struct PortRef {
    pub node: u8,
    pub port: u8,
}

impl fmt::Display for PortRef {
    ghost output = { λ p. Some (port_text p) };

    fn fmt<W: fmt::Write>(&self, f: &mut fmt::Formatter<W>) -> fmt::Result {
        write!(f, "{}.{}", self.node, self.port)
    }
}

// Stays: FromStr takes a text and knows no limits;
// `low..=high` is a RangeInclusive, whose third field, whether it has run to its end, the contract would have to speak of.
/// Reads a number in decimal digits that lies between two limits.
pub fn number(word: &[u8], low: u32, high: u32) -> Option<u32>
    ensures value { result ≡ number_in low high word.now }
    ensures bound { IfSome result (λ n. (low ≤ n) × (n ≤ high)) }
{
    if word.is_empty() {
        return None;
    }
    let mut value: u32 = 0;
    for b in word {
        let digit = char::from(*b).to_digit(10)?;
        value = value.checked_mul(10)?.checked_add(digit)?;
    }
    (low..=high).contains(&value).then_some(value)
}

/// Reads a port, as BOX.PORT.
pub fn port(word: &[u8]) -> Option<PortRef>
    ensures { result ≡ port_of word.now }
{
    let (before, rest) = word.split_at(run(word, Kind::Digit));
    let after = rest.strip_prefix(b".".as_slice())?;
    let node = number(before, 0, 5)? as u8;
    let port = number(after, 0, 15)? as u8;
    Some(PortRef { node, port })
}

/// Says whether a word can name a station.
pub fn is_name(word: &[u8]) -> bool
    ensures { result ≡ is_name word.now }
{
    (1..=16).contains(&word.len()) && all_of(word, Kind::Letter) && !matches!(word, b"all")
}

/// Reads a hex digit.
fn hex(b: u8) -> Option<u8>
    ensures { result ≡ hex_of b }
{
    Some(char::from(b).to_digit(16)? as u8)
}

/// Reads the pair of hex digits that write a byte.
fn pair(high: u8, low: u8) -> Option<u8>
    ensures { result ≡ pair_of high low }
{
    Some(hex(high)? * 16 + hex(low)?)
}

/// Reads an address of six pairs of hex digits with colons, whose first byte is even.
pub fn address(word: &[u8]) -> Option<[u8; 6]>
    ensures { result ≡ address_of word.now }
{
    let [
        a,
        b,
        b':',
        c,
        d,
        b':',
        e,
        f,
        b':',
        g,
        h,
        b':',
        i,
        j,
        b':',
        k,
        l,
    ] = word
    else {
        return None;
    };
    let address = [
        pair(*a, *b)?,
        pair(*c, *d)?,
        pair(*e, *f)?,
        pair(*g, *h)?,
        pair(*i, *j)?,
        pair(*k, *l)?,
    ];
    (address[0] % 2 == 0).then_some(address)
}

/// The box above a box, by the digit at its place; a box that has none stands above itself.
fn parent_at(word: &[u8], node: u8) -> u8
    ensures { result ≡ parent_at word.now node }
{
    word.get(usize::from(node))
        .map_or(node, |digit| digit.saturating_sub(b'0'))
}

/// Reads the boxes above boxes 0, 1, 2 and so on, a digit for each.
pub fn parents(word: &[u8]) -> Option<[u8; 6]>
    ensures { result ≡ parents_of word.now }
{
    let above = [0, 1, 2, 3, 4, 5].map(|node| parent_at(word, node));
    ((1..=6).contains(&word.len()) && all_of(word, Kind::BoxDigit)).then_some(above)
}
