// What the row's contracts come to over everything that can happen to it.
ghost use Rattle.rows.specs.Bounds.{SmallSlots, SmallRows, SmallFrames, SmallBudgets};
ghost use Rattle.rows.specs.Events.{InOrder, Accounted, NothingLost, NeverAbove16};

// Frames leave in the order in which they came; none is lost but for want of room or a hold-down, and none is sent twice.
pub fn order_stands() -> u8
    ensures order { InOrder }
    ensures accounted { Accounted }
    ensures whole { NothingLost }
    ensures small { NeverAbove16 }
{
    0
}

// At any time a slot and each frame that waits has at most 1529 bytes, a row 16 frames, and a budget counts to 64 at most.
pub fn bounds_stand() -> u8
    ensures slots { SmallSlots }
    ensures rows { SmallRows }
    ensures frames { SmallFrames }
    ensures budgets { SmallBudgets }
{
    0
}
