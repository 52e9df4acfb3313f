// A run that meets every premise of the promise: none of them is one that can't hold.
ghost use Rattle.bridges.specs.Witness.{Met};

// The premises of arrival and of right learning hold together in a run of a ring of three bridges.
pub fn premises_can_hold() -> u8
    ensures { Met }
{
    0
}
