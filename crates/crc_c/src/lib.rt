// The sum as a static library, for callers in C.
#![tactic(auto)]

ghost use Rattle.std.specs.Prelude.{◌≡◌};
ghost use Rattle.crc.specs.Crc.{crc_of};

use crc::checksum;

// The CRC-32 of the bytes, which C gives as a pointer and a length.
// Stays: the static library gives C what this crate itself exports, so the name stands here as well as in `crc`.
#[unsafe(no_mangle)]
pub extern "C" fn bridge_crc32(bytes: &[u8]) -> u32
    ensures { result ≡ crc_of bytes.now }
{
    checksum(bytes)
}
