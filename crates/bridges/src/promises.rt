// The promise of the whole net, whole and part by part.
ghost use Rattle.bridges.specs.Promise.{Main};
ghost use Rattle.bridges.specs.Guarantee.{Guaranteed};
ghost use Rattle.bridges.specs.Parts.{NoRound, NotTwice, OnceIfStill, RightVlan, OneSender, LearntRight, ArrivesOnce, CanRest};

// The whole promise, after any events.
pub fn whole_net_is_guaranteed() -> u8
    ensures { Guaranteed }
{
    0
}

// No copy of a frame comes to a bridge where that copy was.
pub fn no_copy_comes_round() -> u8
    ensures { NoRound }
{
    0
}

// No bridge hands a frame to a station twice.
pub fn no_bridge_hands_over_twice() -> u8
    ensures { NotTwice }
{
    0
}

// A station that stays gets a frame at most once, over all bridges.
pub fn who_stays_gets_it_once() -> u8
    ensures { OnceIfStill }
{
    0
}

// Who gets a frame is of its sender's VLAN and isn't its sender.
pub fn vlans_are_kept_apart() -> u8
    ensures { RightVlan }
{
    0
}

// Each frame has one sender.
pub fn frames_have_one_sender() -> u8
    ensures { OneSender }
{
    0
}

// What is learnt along a tree of a station that hasn't moved since isn't wrong.
pub fn learnt_is_right() -> u8
    ensures { LearntRight }
{
    0
}

// At rest a frame to a station arrives once, and nobody else gets it where all know the station.
pub fn frames_arrive_once() -> u8
    ensures { ArrivesOnce }
{
    0
}

// Wherever links join all bridges, one tree announced and adopted by each brings rest.
pub fn rest_can_come() -> u8
    ensures { CanRest }
{
    0
}

// The first promise, of the net with two-sided links.
pub fn first_promise_stands() -> u8
    ensures { Main }
{
    0
}
