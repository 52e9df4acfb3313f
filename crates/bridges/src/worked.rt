// The worked cases: a ring of three bridges, what happens, and what a run shows.
ghost use Rattle.bridges.specs.Cases.{AllCases};
ghost use Rattle.bridges.specs.Trace.{RefusalsChangeNothing};

// Every row of the table of worked cases holds.
pub fn worked_cases_hold() -> u8
    ensures { AllCases }
{
    0
}

// An event that is answered by a fault changes nothing, but that the copy which came is gone.
pub fn refusals_change_nothing() -> u8
    ensures { RefusalsChangeNothing }
{
    0
}
