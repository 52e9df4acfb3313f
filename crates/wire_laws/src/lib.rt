// What holds of the messages in bytes, for every one of them: theorems over the definitions that the contracts of `wire` cite.
#![tactic(auto)]

ghost use Rattle.wire_laws.specs.Damage.{Told};
ghost use Rattle.wire_laws.specs.RoundTrips.{RoundTrips};

// Shows that what is written is read back, that what is read would be written byte for byte, and that different messages have different bytes.
pub fn round_trips_stand() -> u8
    ensures { RoundTrips }
{
    0
}

// Shows that a message that is damaged within 32 bits in a row before its sum, or in its sum, or that is cut, is refused.
pub fn damage_is_told() -> u8
    ensures { Told }
{
    0
}
