// What the contracts come to, in the words of the rules.
ghost use Rattle.pending.specs.Words.{LowestFirst, NoneLeft, OnlyTheNewest};

// Messages leave by kind and then by bridge, and nothing is kept back.
pub fn order_stands() -> u8
    ensures first { LowestFirst }
    ensures all { NoneLeft }
{
    0
}

// Of acknowledgements of one kind for one bridge only the newest is sent.
pub fn newest_stands() -> u8
    ensures { OnlyTheNewest }
{
    0
}
