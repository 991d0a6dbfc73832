// Every call in every phase of a planner, and rows of calls.
use crate::visits::{Visit, visit};
use astar::refusal::{CallRefusal, CallReport};
use planner::call::Call;
use planner::phase::Phase;
use samples::files::{sample_ranking, sample_site};
use std::fmt;

// How far a planner has come.
#[derive(Clone, Copy, PartialEq, Eq, PartialOrd, Ord)]
enum Stage {
    Empty,
    Loaded,
    AtWork,
    Ended,
}

const STAGES: [Stage; 4] = [Stage::Empty, Stage::Loaded, Stage::AtWork, Stage::Ended];

impl From<Phase> for Stage {
    fn from(phase: Phase) -> Self {
        match phase {
            Phase::Empty => Stage::Empty,
            Phase::Loaded => Stage::Loaded,
            Phase::Running => Stage::AtWork,
            Phase::Ended(_) => Stage::Ended,
        }
    }
}

impl fmt::Display for Stage {
    fn fmt<W: fmt::Write>(&self, f: &mut fmt::Formatter<W>) -> fmt::Result {
        match self {
            Stage::Empty => write!(f, "empty"),
            Stage::Loaded => write!(f, "loaded"),
            Stage::AtWork => write!(f, "at work"),
            Stage::Ended => write!(f, "ended"),
        }
    }
}

// A planner that was brought so far.
fn brought_to(stage: Stage) -> Visit {
    let mut planner = visit();
    if stage >= Stage::Loaded {
        let _ = planner.call(Call::Load(sample_site()));
    }
    if stage >= Stage::AtWork {
        let _ = planner.call(Call::Start);
    }
    if stage >= Stage::Ended {
        let _ = planner.call(Call::Work(64));
    }
    planner
}

// What is answered, as it is printed: the number of the refusal, or 0 for none.
#[derive(Clone, Copy)]
struct Answer(Option<CallRefusal>);

impl<T: Drop> From<Result<T, CallRefusal>> for Answer {
    fn from(answer: Result<T, CallRefusal>) -> Self {
        Answer(answer.err())
    }
}

fn number(refusal: CallRefusal) -> u8 {
    match CallReport::from(refusal) {
        CallReport::File(report) => report.number,
        CallReport::Own(number) => number,
    }
}

impl fmt::Display for Answer {
    fn fmt<W: fmt::Write>(&self, f: &mut fmt::Formatter<W>) -> fmt::Result {
        let number = self.0.map_or(0, number);
        write!(f, "{number}")
    }
}

// What a call is answered in each phase.
fn show(rt: &HostRuntime, name: &str, call: Call) -> anyhow::Result<()> {
    print!(rt; "{name}:")?;
    for stage in STAGES {
        let answer = Answer::from(brought_to(stage).call(call));
        print!(rt; " {stage} {answer}")?;
    }
    println!(rt; "")?;
    Ok(())
}

pub(crate) fn try_phases(rt: &HostRuntime) -> anyhow::Result<()> {
    show(rt, "load the sample", Call::Load(sample_site()))?;
    show(rt, "load nothing", Call::Load(b""))?;
    show(rt, "offer the ranking", Call::Offer(sample_ranking()))?;
    show(rt, "offer nothing", Call::Offer(b""))?;
    show(rt, "withdraw", Call::Withdraw)?;
    show(rt, "start", Call::Start)?;
    show(rt, "work 0", Call::Work(0))?;
    show(rt, "work 1", Call::Work(1))?;
    show(rt, "stop", Call::Stop)
}

// The questions of cost and label in each phase, and the label past the plan.
pub(crate) fn try_questions(rt: &HostRuntime) -> anyhow::Result<()> {
    for stage in STAGES {
        let planner = brought_to(stage);
        let is = Stage::from(planner.phase());
        let cost = Answer::from(planner.cost());
        let first = Answer::from(planner.label(0));
        let past = Answer::from(planner.label(1));
        println!(rt; "questions, {stage}: {is}, cost {cost}, label 0 {first}, label 1 {past}")?;
    }
    Ok(())
}

fn entries(planner: &Visit) -> usize {
    planner.counts().entries
}

// Offers and withdrawals between and after runs, and a stop: the ranking in force when a run starts counts.
pub(crate) fn try_rows(rt: &HostRuntime) -> anyhow::Result<()> {
    let mut planner = brought_to(Stage::Ended);
    let bare = entries(&planner);
    let _ = planner.call(Call::Offer(sample_ranking()));
    let kept = entries(&planner);
    let _ = planner.call(Call::Start);
    let _ = planner.call(Call::Work(64));
    let ranked = entries(&planner);
    let _ = planner.call(Call::Withdraw);
    let _ = planner.call(Call::Start);
    let begun = entries(&planner);
    let _ = planner.call(Call::Stop);
    let stopped = entries(&planner);
    let _ = planner.call(Call::Start);
    let _ = planner.call(Call::Work(64));
    let again = entries(&planner);
    println!(rt;
        "entries: bare {bare}, after an offer {kept}, ranked {ranked}, begun {begun}, stopped {stopped}, bare again {again}"
    )?;
    Ok(())
}
