// The sum for callers in C.
ghost use Rattle.crc.specs.Crc.{crc_of};
ghost use Rattle.std.specs.Prelude.{◌≡◌};

use crate::checksum;

// The CRC-32 of the bytes, which C gives as a pointer and a length.
// Stays: C finds the sum by this name where the crate is linked into a program.
#[unsafe(no_mangle)]
pub extern "C" fn bridge_crc32(bytes: &[u8]) -> u32
    ensures { result ≡ crc_of bytes.now }
{
    checksum(bytes)
}
