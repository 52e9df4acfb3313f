// The sum at the end of every message between bridges.
ghost use Rattle.std.specs.Prelude.{◌≡◌, ◌+◌, ◌<◌, ◌≤◌, ◌++◌, is_ok, if◌then◌else◌, length, slice_index, vec_capacity};
ghost use Rattle.wire.specs.Bytes.{summed, whole, with_sum};

use crc::checksum;
use std::alloc::AllocError;

// Do the bytes end with the sum of those before it?
pub fn is_summed(bytes: &[u8]) -> bool
    ensures { result ≡ summed bytes.now }
{
    bytes
        .split_last_chunk()
        .is_some_and(|(body, sum)| u32::from_be_bytes(*sum) == checksum(body))
}

// Are the bytes whole, a message of this kind and length with its sum?
// Stays: public, for any byte; a Kind would ask more of callers, and `Kind::is_whole` takes one.
pub fn is_whole(bytes: &[u8], kind: u8, length: usize) -> bool
    ensures { result ≡ whole kind length bytes.now }
{
    bytes.len() == length && kind_of(bytes) == kind && is_summed(bytes)
}

// The kind of a message: its first byte, or 0, which is no kind.
// Stays: public, for any byte; `Kind::of` gives a Kind, or why there is none.
pub fn kind_of(bytes: &[u8]) -> u8
    ensures { result ≡ slice_index bytes.now 0 }
{
    bytes.first().copied().unwrap_or(0)
}

// Appends a message of two parts with its sum, or nothing where there is no room.
pub fn append_summed(out: &mut Vec<u8>, head: &[u8], rest: &[u8]) -> Result<(), AllocError>
    ensures { out.new.items ≡ (if is_ok result then out.old.items ++ with_sum (head.now ++ rest.now) else out.old.items) }
{
    let start = out.len();
    out.reserve(head.len().saturating_add(rest.len()).saturating_add(4))?;
    append(out, head, rest)?;
    let (_, message) = out.as_slice().split_at(start);
    let sum = checksum(message);
    out.extend_from_slice(&sum.to_be_bytes())
}

// Appends two parts, or nothing where there is no room.
pub fn append(out: &mut Vec<u8>, head: &[u8], rest: &[u8]) -> Result<(), AllocError>
    ensures items { out.new.items ≡ (if is_ok result then out.old.items ++ (head.now ++ rest.now) else out.old.items) }
    ensures room { vec_capacity out.old ≤ vec_capacity out.new }
{
    out.reserve(head.len().saturating_add(rest.len()))?;
    out.extend_from_slice(head)?;
    out.extend_from_slice(rest)
}
