// What is promised of the net that code is proved against gives the first promise.
ghost use Rattle.bridges.specs.Promise.{Main};
ghost use Rattle.bridges.specs.Guarantee.{Guaranteed};

// The first promise follows: every run of its net is one of this net.
pub fn main_follows() -> u8
    ensures { Guaranteed → Main }
{
    0
}
