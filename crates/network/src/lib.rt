// A net of bridges that do what the contracts of `forwarding` say, with stations plugged in, links and trees that come
// and go, and copies of frames under way: that all that is promised of the net of bridges holds of it. Each theorem is
// the `ensures` of a function.
#![tactic(auto)]

ghost use Rattle.network.specs.AsContracts.{AsContracts};
ghost use Rattle.network.specs.Simulation.{RunsAsNet, GoesOnAsNet, AlwaysSafe};

// What a bridge of the net does with a frame is what the contracts of the code's functions say.
pub fn net_does_as_contracts_say() -> u8
    ensures { AsContracts }
{
    0
}

// Whatever a net of bridges comes to is a world of the promised net, with all that is promised of it.
pub fn net_runs_as_promised() -> u8
    ensures { RunsAsNet }
{
    0
}

// And whatever happens to it next, happens in the promised net too.
pub fn net_goes_on_as_promised() -> u8
    ensures { GoesOnAsNet }
{
    0
}

// No copy of a frame is where it was, no bridge hands a frame to a station twice, and nobody gets a frame of another VLAN.
pub fn net_is_always_safe() -> u8
    ensures { AlwaysSafe }
{
    0
}
