// What holds of every table, as theorems: each is what a function of no other use ensures, so that the check asks for its proof.
ghost use Rattle.fdb.specs.Address.{Apart};
ghost use Rattle.fdb.specs.Learning.{Learning};
ghost use Rattle.fdb.specs.Ageing.{Ageing};
ghost use Rattle.fdb.specs.History.{History, Longest};

// No two stations have one number.
pub fn stations_stand() -> u8
    ensures { Apart }
{
    0
}

// After a station was heard it is known where it is; every other is known as before, but for one that goes when there is no room, the longest unheard of.
pub fn learning_stands() -> u8
    ensures { Learning }
{
    0
}

// After a tick what was heard in the last 300 ticks is known as before, and nothing else.
pub fn ageing_stands() -> u8
    ensures { Ageing }
{
    0
}

// Whatever happened, what is said of a station is the last thing heard of it; unknown is only what is old, and what went for want of room.
pub fn history_stands() -> u8
    ensures { History }
{
    0
}

// Who goes for want of room was heard before every other station that is held, but for the one that is kept.
pub fn longest_stands() -> u8
    ensures { Longest }
{
    0
}
