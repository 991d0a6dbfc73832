// The laws of A* runs and of rows of calls to a planner, each on a function that asks for its proof.
#![tactic(auto)]

ghost use Rattle.astar.specs.Laws.{SearchesWell};
ghost use Rattle.astar.specs.Promises.{KeepsPromises};
ghost use Rattle.astar.specs.Takes.{TakesOneWay};

pub mod refusal;

// Every run comes to what it should: a cheapest plan, the proof that there is none, or want of room.
pub fn runs_well() -> u8
    ensures { SearchesWell }
{
    0
}

// Every take, and every row of takes, has exactly one outcome.
pub fn takes_one_way() -> u8
    ensures { TakesOneWay }
{
    0
}

// A planner keeps its promises after every row of calls.
pub fn keeps_promises() -> u8
    ensures { KeepsPromises }
{
    0
}
