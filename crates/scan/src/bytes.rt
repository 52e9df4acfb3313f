// Kinds of bytes, runs of one kind, and words compared.
ghost use Rattle.std.specs.Prelude.{◌≡◌, ℕ, ◌+◌, ◌<◌, ◌≤◌, length};
ghost use Rattle.std.specs.List.{prefix_len, list_all};
ghost use Rattle.std.specs.Str.{bytes_eq};
ghost use Rattle.scan.specs.Bytes.{blank, is_of};

/// The kinds of bytes that a script tells apart.
// Stays: with a closure for the test, `run` would have to promise "for each p that the closure computes, prefix_len p";
// with a kind it says `prefix_len (is_of kind)`, and the definitions of lines and words name the same kinds.
#[derive(Clone, Copy, PartialEq, Eq, Debug)]
pub enum Kind {
    Blank,
    Solid,
    Plain,
    Code,
    Line,
    Digit,
    BoxDigit,
    Letter,
}

/// Says whether a byte is a space, a tab or a carriage return.
fn is_blank(b: u8) -> bool
    ensures { result ≡ blank b }
{
    matches!(b, b' ' | b'\t' | b'\r')
}

/// Says whether a byte is of a kind, for every rule about single bytes.
pub fn is_of(kind: Kind, b: u8) -> bool
    ensures { result ≡ is_of kind b }
{
    // Stays: the table of kinds, for the reason that stands at the type.
    match kind {
        Kind::Blank => is_blank(b),
        Kind::Solid => !is_blank(b),
        Kind::Plain => is_blank(b) || matches!(b, b' '..=b'~'),
        Kind::Code => b != b'#',
        Kind::Line => b != b'\n',
        Kind::Digit => b.is_ascii_digit(),
        Kind::BoxDigit => matches!(b, b'0'..=b'5'),
        Kind::Letter => b.is_ascii_alphanumeric() || b == b'-',
    }
}

/// How many bytes at the front are of a kind: every cut of a line is made by it.
pub fn run(bytes: &[u8], kind: Kind) -> usize
    ensures value { result ≡ prefix_len (is_of kind) bytes.now }
    ensures within { result ≤ length bytes.now }
{
    bytes.iter().take_while(|b| is_of(kind, **b)).count()
}

/// Compares two words byte by byte.
// Stays: public; within the project words are compared by `==`.
pub fn same(a: &[u8], b: &[u8]) -> bool
    ensures { result ≡ bytes_eq a.now b.now }
{
    a == b
}

/// Says whether all bytes are of a kind.
pub fn all_of(bytes: &[u8], kind: Kind) -> bool
    ensures { result ≡ list_all (is_of kind) bytes.now }
{
    bytes.iter().all(|b| is_of(kind, *b))
}
