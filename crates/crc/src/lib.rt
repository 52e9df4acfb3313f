// CRC-32 as in IEEE 802.3: the sum that ends every message between bridges.
#![tactic(auto)]

mod bits;
mod burst;
mod exported;
mod slices;
mod tables;

pub use bits::bitwise;
pub use burst::bursts_are_told;
pub use exported::bridge_crc32;
pub use slices::checksum;

#[cfg(test)]
mod tests {
    use super::*;
    use std::process::Abort;

    fn check_sum(rt: &impl Abort, bytes: &[u8], sum: u32) {
        assert_eq!(rt; checksum(bytes), sum);
        assert_eq!(rt; bitwise(bytes), sum);
    }

    // Sums made with another program, of strings shorter than, as long as and longer than the eight bytes of a turn.
    #[test]
    fn sums_of_known_strings(rt: HostRuntime) {
        check_sum(&rt, b"", 0);
        check_sum(&rt, b"a", 0xE8B7_BE43);
        check_sum(&rt, b"12345678", 0x9AE0_DAAF);
        check_sum(&rt, b"123456789", 0xCBF4_3926);
        check_sum(
            &rt,
            b"The quick brown fox jumps over the lazy dog",
            0x414F_A339,
        );
    }
}
