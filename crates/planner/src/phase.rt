// What a planner is at.

// How a run ended.
#[derive(Clone, Copy, Debug, PartialEq, Eq)]
pub enum Word {
    // With a plan, which ends in this entry.
    Plan { end: u16 },
    // There is no plan.
    NoPlan,
    // There was no room for another entry.
    Full,
}

#[derive(Clone, Copy, Debug, PartialEq, Eq)]
pub enum Phase {
    // No task.
    Empty,
    // A task, and no run.
    Loaded,
    Running,
    Ended(Word),
}
