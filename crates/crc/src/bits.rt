// The sum bit by bit, with no table: for where memory is dearer than time.
ghost use Rattle.std.specs.Prelude.{◌≡◌, ◌^◌, ◌<◌, bit_xor};
ghost use Rattle.crc.specs.Crc.{after, all_ones, crc_of, shifted};

const POLYNOMIAL: u32 = 0xEDB8_8320;

// The register shifted down by one bit.
#[tactic(auto, unfolding(crate::specs::Crc::shifted))]
fn shift(register: u32) -> u32
    ensures { result ≡ shifted register }
{
    (register / 2) ^ (register % 2 * POLYNOMIAL)
}

// The register after it took in one byte.
fn take_byte(register: u32, byte: u8) -> u32
    ensures { result ≡ after 8 (bit_xor register byte) }
{
    (0..8u32).fold(register ^ u32::from(byte), |shifting, _turn| {
        shift(shifting)
    })
}

// The CRC-32 of the bytes, with no table.
pub fn bitwise(bytes: &[u8]) -> u32
    ensures { result ≡ crc_of bytes.now }
{
    taken_in(bytes) ^ u32::MAX
}

// The register after it took in the bytes: the sum before its bits are turned.
fn taken_in(bytes: &[u8]) -> u32
    ensures { bit_xor result all_ones ≡ crc_of bytes.now }
{
    bytes
        .iter()
        .fold(u32::MAX, |register, byte| take_byte(register, *byte))
}
