// The sum by tables, eight bytes at a time: the one to use where it has to be fast.
ghost use Rattle.std.specs.Prelude.{◌≡◌, ◌^◌, ◌<◌, bit_xor};
ghost use Rattle.crc.specs.Crc.{after, all_ones, crc_of};

use crate::tables::by;

// The register after it took in one byte.
#[tactic(auto, using(crate::proofs::Linear::after_table))]
fn take_byte(register: u32, byte: u8) -> u32
    ensures { result ≡ after 8 (bit_xor register byte) }
{
    by::<1>((register % 256) as u8 ^ byte) ^ (register / 256)
}

// Eight bytes, the first lowest, shifted through 64 bits.
fn shift_eight(word: u64) -> u32
    ensures { result ≡ after 64 word }
{
    let [a, b, c, d, e, f, g, h] = word.to_le_bytes();
    by::<8>(a)
        ^ by::<7>(b)
        ^ by::<6>(c)
        ^ by::<5>(d)
        ^ by::<4>(e)
        ^ by::<3>(f)
        ^ by::<2>(g)
        ^ by::<1>(h)
}

// The CRC-32 of the bytes.
pub fn checksum(bytes: &[u8]) -> u32
    ensures { result ≡ crc_of bytes.now }
{
    taken_in(bytes) ^ u32::MAX
}

// The register after it took in the bytes: the sum before its bits are turned.
fn taken_in(bytes: &[u8]) -> u32
    ensures { bit_xor result all_ones ≡ crc_of bytes.now }
{
    let mut register = u32::MAX;
    let mut rest = bytes;
    while let [a, b, c, d, e, f, g, h, tail @ ..] = rest {
        let word = u64::from_le_bytes([*a, *b, *c, *d, *e, *f, *g, *h]);
        register = shift_eight(u64::from(register) ^ word);
        rest = tail;
    }
    rest.iter()
        .fold(register, |register, byte| take_byte(register, *byte))
}
