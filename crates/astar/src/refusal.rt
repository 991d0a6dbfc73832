// Why a call to a planner, or a question to it, is refused, and how that is reported.
ghost use Rattle.std.specs.Prelude.{◌≡◌};
ghost use Rattle.astar.specs.Refusals.{call_report_of};
ghost use Rattle.astar.specs.declared.refusal.CallRefusal.TheVariants.{Input};

use site::refusal::{Refusal, Report};

#[derive(Clone, Copy, Debug, PartialEq, Eq)]
pub enum CallRefusal {
    // The file of the call is refused.
    Input(Refusal),
    // A work order of 0 takes.
    NoTakes,
    // The position lies past the plan.
    PastPlan,
    // The planner is empty: it has no task.
    Empty,
    // The planner is at work on its task.
    Busy,
    // The planner is not at work.
    Idle,
    // No plan is reported.
    NoPlan,
}

// A refusal as it is reported.
#[derive(Clone, Copy, Debug, PartialEq, Eq)]
pub enum CallReport {
    // That of the file of the call.
    File(Report),
    // One of the planner's own. A number is what the format of the box reports of each refusal.
    Own(u8),
}

impl From<Refusal> for CallRefusal {
    ghost from_gives = { λ refusal call. call ≡ Input refusal };

    fn from(refusal: Refusal) -> CallRefusal {
        CallRefusal::Input(refusal)
    }
}

impl From<CallRefusal> for CallReport {
    ghost from_gives = { λ refusal report. report ≡ call_report_of refusal };

    fn from(refusal: CallRefusal) -> CallReport {
        match refusal {
            CallRefusal::Input(refusal) => CallReport::File(refusal.into()),
            CallRefusal::NoTakes => CallReport::Own(12),
            CallRefusal::PastPlan => CallReport::Own(13),
            CallRefusal::Empty => CallReport::Own(21),
            CallRefusal::Busy => CallReport::Own(22),
            CallRefusal::Idle => CallReport::Own(23),
            CallRefusal::NoPlan => CallReport::Own(24),
        }
    }
}
