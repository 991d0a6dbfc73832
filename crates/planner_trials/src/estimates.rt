// The estimators beside distances that are found by rounds of relaxation.
use crate::relaxing::Part;
use crate::tasks::random_site;
use anyhow::anyhow;
use estimators::blank::Blank;
use estimators::estimator::Estimator;
use estimators::greater::Greater;
use estimators::longest::Longest;
use estimators::pair::Pair;
use lists::heaps::DistanceHeap;
use lists::keys::DistanceKey;
use lists::row::Row;
use samples::random::Random;
use site::read::read_site;
use std::{array, fmt};
use task::state::State;
use task::task::Task;

// Factor 0 goes from 0 over 1 to its goal 2 by label 1, which costs 5 and keeps factor 1. Factor 1 goes from 0 to its
// goal 1 by label 2, which costs 7 and keeps factor 0.
const WORKED: &[u8; 47] = b"T\x02\x02\
    F\x00\x03\x00\
    F\x01\x02\x00\
    G\x00\x02\
    G\x01\x01\
    C\x01\x00\x05\
    C\x02\x00\x07\
    M\x00\x01\x00\x01\
    M\x00\x01\x01\x02\
    S\x01\x01\
    S\x00\x02\
    M\x01\x02\x00\x01\
    E";

fn greater(first: Option<u32>, second: Option<u32>) -> Option<u32> {
    Some(first?.max(second?))
}

// The largest distance of a fact of the state, by rounds of relaxation.
fn largest(task: &Task, state: &State) -> Option<u32> {
    (0..task.factors)
        .map(|first| {
            let part = Part {
                task,
                first,
                second: None,
            };
            part.distance(state)
        })
        .fold(Some(0), greater)
}

// The distance of a pair of facts of the state, by rounds of relaxation.
fn distance(task: &Task, state: &State, first: u8, second: u8) -> Option<u32> {
    if first == second || first >= task.factors || second >= task.factors {
        return Some(0);
    }
    let part = Part {
        task,
        first,
        second: Some(second),
    };
    part.distance(state)
}

fn random_state(task: &Task, random: &mut Random) -> State {
    State {
        facts: array::from_fn(|factor| random.below(task.facts(factor as u8))),
    }
}

const TASKS: u32 = 1000;

const STATES: u32 = 10;

// What came of a row of estimates: how many there were, how many were as wanted, and how many of these hopeless.
#[derive(Clone, Copy, Default)]
struct Tally {
    all: u32,
    equal: u32,
    hopeless: u32,
    sum: u64,
}

impl Tally {
    fn note(&mut self, estimate: Option<u32>, wanted: Option<u32>) {
        self.all = self.all.saturating_add(1);
        if estimate != wanted {
            return;
        }
        self.equal = self.equal.saturating_add(1);
        match estimate {
            Some(cost) => self.sum = self.sum.saturating_add(u64::from(cost)),
            None => self.hopeless = self.hopeless.saturating_add(1),
        }
    }
}

impl fmt::Display for Tally {
    fn fmt<W: fmt::Write>(&self, f: &mut fmt::Formatter<W>) -> fmt::Result {
        let Tally {
            all,
            equal,
            hopeless,
            sum,
        } = *self;
        write!(
            f,
            "{equal} of {all} estimates equal, {hopeless} hopeless, sum {sum}"
        )
    }
}

// Makes an estimator ready for random tasks, one after the other, and asks it at random states for what is wanted there.
fn try_estimator<E: Estimator, W: Fn(&Task, &State) -> Option<u32> + Drop>(
    rt: &HostRuntime,
    name: &str,
    estimator: &mut E,
    wanted: W,
) -> anyhow::Result<()>
    requires { W.IsAlwaysCallable wanted }
{
    let mut random = Random { state: 3 };
    let mut tally = Tally::default();
    for _ in 0..TASKS {
        let site = random_site(rt.alloc(), &mut random)?;
        if let Ok(task) = read_site(&site) {
            estimator.ready(&task);
            try_states(&task, &mut random, estimator, &wanted, &mut tally);
        }
    }
    println!(rt; "{name}: {tally}")?;
    Ok(())
}

fn try_states<E: Estimator, W: Fn(&Task, &State) -> Option<u32>>(
    task: &Task,
    random: &mut Random,
    estimator: &E,
    wanted: &W,
    tally: &mut Tally,
)
    requires { W.IsAlwaysCallable wanted.now }
{
    for _ in 0..STATES {
        let state = random_state(task, random);
        tally.note(estimator.estimate(task, &state), wanted(task, &state));
    }
}

fn try_pairs(rt: &HostRuntime) -> anyhow::Result<()> {
    let mut pair = Pair::new(DistanceHeap::new(), 0, 1);
    try_estimator(rt, "pair of 0 and 1, heap", &mut pair, |task, state| {
        distance(task, state, 0, 1)
    })?;
    let mut turned = Pair::new(Row::<DistanceKey>::new(), 2, 0);
    try_estimator(rt, "pair of 2 and 0, row", &mut turned, |task, state| {
        distance(task, state, 2, 0)
    })?;
    let mut same = Pair::new(DistanceHeap::new(), 1, 1);
    try_estimator(rt, "pair of 1 and 1, heap", &mut same, |_, _| Some(0))
}

pub(crate) fn try_random(rt: &HostRuntime) -> anyhow::Result<()> {
    try_estimator(rt, "blank", &mut Blank, |_, _| Some(0))?;
    let mut longest = Longest::new(DistanceHeap::new());
    try_estimator(rt, "longest, heap", &mut longest, largest)?;
    let mut scanned = Longest::new(Row::<DistanceKey>::new());
    try_estimator(rt, "longest, row", &mut scanned, largest)?;
    try_pairs(rt)?;
    let pair = Pair::new(DistanceHeap::new(), 0, 1);
    let mut both = Greater::new(longest, pair);
    try_estimator(
        rt,
        "greater of longest and pair",
        &mut both,
        |task, state| { greater(largest(task, state), distance(task, state, 0, 1)) },
    )
}

// An estimate as it is printed.
#[derive(Clone, Copy)]
struct Shown(Option<u32>);

impl fmt::Display for Shown {
    fn fmt<W: fmt::Write>(&self, f: &mut fmt::Formatter<W>) -> fmt::Result {
        match self.0 {
            Some(cost) => write!(f, "{cost}"),
            None => write!(f, "hopeless"),
        }
    }
}

// The estimates of the worked example at each of its states.
pub(crate) fn try_worked(rt: &HostRuntime) -> anyhow::Result<()> {
    let task = read_site(WORKED).map_err(|_| anyhow!("the worked example is refused"))?;
    let mut longest = Longest::new(DistanceHeap::new());
    let mut pair = Pair::new(DistanceHeap::new(), 0, 1);
    longest.ready(&task);
    pair.ready(&task);
    for first in 0..task.facts(0) {
        for second in 0..task.facts(1) {
            let mut state = task.start_state();
            state.facts[0] = first;
            state.facts[1] = second;
            let largest = Shown(longest.estimate(&task, &state));
            let distance = Shown(pair.estimate(&task, &state));
            println!(rt; "facts {first} and {second}: longest {largest}, pair {distance}")?;
        }
    }
    Ok(())
}
