// The planner on worked examples: what it comes to, by each estimator, each list and several sizes of orders.
use anyhow::ensure;
use estimators::blank::Blank;
use estimators::estimator::Estimator;
use estimators::greater::Greater;
use estimators::longest::Longest;
use estimators::pair::Pair;
use lists::heaps::{DistanceHeap, SearchHeap};
use lists::keys::SearchKey;
use lists::row::Row;
use lists::waiting::WaitingList;
use planner::call::Call;
use planner::counts::Counts;
use planner::phase::{Phase, Word};
use planner::planner::Planner;
use samples::files::{changed, sample_ranking, sample_site};
use std::alloc::{AllocError, Global};
use std::fmt;

// So many orders of one take end every run.
const ORDERS: u16 = 1025;

// Starts a run, and orders so many takes until it ends. The orders are counted: no call says that a run ends.
fn run<E: Estimator, L: WaitingList<SearchKey>>(planner: &mut Planner<E, L>, takes: u16) {
    let _ = planner.call(Call::Start);
    for _ in 0..ORDERS {
        if let Phase::Running = planner.phase() {
            let _ = planner.call(Call::Work(takes));
        }
    }
}

// The word on the last run as it is printed.
#[derive(Clone, Copy)]
struct Said(Option<Word>);

impl fmt::Display for Said {
    fn fmt<W: fmt::Write>(&self, f: &mut fmt::Formatter<W>) -> fmt::Result {
        match self.0 {
            Some(Word::Plan { .. }) => write!(f, "plan"),
            Some(Word::NoPlan) => write!(f, "no plan"),
            Some(Word::Full) => write!(f, "full"),
            None => write!(f, "no word"),
        }
    }
}

// How many labels the plan has.
fn steps<E: Estimator, L: WaitingList<SearchKey>>(planner: &Planner<E, L>) -> usize {
    (0..ORDERS)
        .take_while(|position| planner.label(*position).is_ok())
        .count()
}

// One line on what a planner has come to.
fn show<E: Estimator, L: WaitingList<SearchKey>>(
    rt: &HostRuntime,
    name: &str,
    planner: &Planner<E, L>,
) -> anyhow::Result<()> {
    let word = Said(planner.word());
    print!(rt; "{name}: {word}")?;
    if let Ok(cost) = planner.cost() {
        let steps = steps(planner);
        print!(rt; ", cost {cost}, steps {steps}")?;
    }
    let Counts {
        entries,
        taken,
        tried,
    } = planner.counts();
    println!(rt; ", taken {taken}, entries {entries}, tried {tried}")?;
    Ok(())
}

// Loads a site, runs by orders of so many takes, and shows what came of it.
fn plan<E: Estimator, L: WaitingList<SearchKey>>(
    rt: &HostRuntime,
    name: &str,
    planner: &mut Planner<E, L>,
    site: &[u8],
    takes: u16,
) -> anyhow::Result<()> {
    ensure!(
        planner.call(Call::Load(site)).is_ok(),
        "the site is refused"
    );
    run(planner, takes);
    show(rt, name, planner)
}

// The estimator and the list of the program `visit`, which cannot be imported; a library for one type and three lines would be no plainer.
pub(crate) type Visit = Planner<Greater<Longest<DistanceHeap>, Pair<DistanceHeap>>, SearchHeap>;

pub(crate) fn visit() -> Visit {
    let longest = Longest::new(DistanceHeap::new());
    let pair = Pair::new(DistanceHeap::new(), 0, 1);
    Planner::new(Greater::new(longest, pair), SearchHeap::new())
}

// The sample, and what differs from it in one place.
pub(crate) fn try_samples(rt: &HostRuntime) -> anyhow::Result<()> {
    let heap = rt.alloc();
    let site = sample_site();
    let mut planner = visit();
    plan(rt, "the sample without its ranking", &mut planner, site, 64)?;
    let _ = planner.call(Call::Offer(sample_ranking()));
    run(&mut planner, 64);
    show(rt, "the sample with its ranking", &planner)?;
    plan(
        rt,
        "without the goal fact of factor 0",
        &mut planner,
        &changed(heap, site, 11..14, &[])?,
        64,
    )?;
    plan(
        rt,
        "begun at the goal fact of factor 0",
        &mut planner,
        &changed(heap, site, 6..7, &[1])?,
        64,
    )
}

// Factors of two facts; label j + 1 turns factor j from 0 to 1 at cost 1, and keeps the others; all 1 is the goal.
pub(crate) fn turned(heap: Global, factors: u8) -> Result<Vec<u8>, AllocError> {
    let mut site = vec![in heap; b'T', factors, factors]?;
    for factor in 0..factors {
        site.extend_from_slice(&[b'F', factor, 2, 0])?;
    }
    for factor in 0..factors {
        site.extend_from_slice(&[b'G', factor, 1])?;
    }
    for turns in 0..factors {
        site.extend_from_slice(&[b'C', turns + 1, 0, 1])?;
        push_turns(&mut site, factors, turns)?;
    }
    site.push(b'E')?;
    Ok(site)
}

// What the label that turns one factor does in each.
fn push_turns(site: &mut Vec<u8>, factors: u8, turns: u8) -> Result<(), AllocError> {
    let label = turns.saturating_add(1);
    for factor in 0..factors {
        if factor == turns {
            site.extend_from_slice(&[b'M', factor, label, 0, 1])?;
        } else {
            site.extend_from_slice(&[b'S', factor, label])?;
        }
    }
    Ok(())
}

// Ten factors, by every estimator and both lists, in orders of one take and of as many as an order can have.
pub(crate) fn try_ten(rt: &HostRuntime) -> anyhow::Result<()> {
    let ten = turned(rt.alloc(), 10)?;
    plan(
        rt,
        "ten factors, blank, heap, orders of 1",
        &mut Planner::new(Blank, SearchHeap::new()),
        &ten,
        1,
    )?;
    plan(
        rt,
        "ten factors, blank, row, orders of 65535",
        &mut Planner::new(Blank, Row::new()),
        &ten,
        65535,
    )?;
    let longest = Longest::new(DistanceHeap::new());
    plan(
        rt,
        "ten factors, longest, row, orders of 1",
        &mut Planner::new(longest, Row::new()),
        &ten,
        1,
    )?;
    let pair = Pair::new(DistanceHeap::new(), 0, 1);
    plan(
        rt,
        "ten factors, pair, heap, orders of 65535",
        &mut Planner::new(pair, SearchHeap::new()),
        &ten,
        65535,
    )?;
    plan(
        rt,
        "ten factors, greater, heap, orders of 64",
        &mut visit(),
        &ten,
        64,
    )?;
    let eleven = turned(rt.alloc(), 11)?;
    plan(
        rt,
        "eleven factors, blank, heap, orders of 64",
        &mut Planner::new(Blank, SearchHeap::new()),
        &eleven,
        64,
    )?;
    plan(
        rt,
        "eleven factors, blank, row, orders of 1",
        &mut Planner::new(Blank, Row::new()),
        &eleven,
        1,
    )
}

// Ten factors by the estimators and lists that are left: what a run comes to does not depend on the list, nor on the sizes of orders.
pub(crate) fn try_other_lists(rt: &HostRuntime) -> anyhow::Result<()> {
    let ten = turned(rt.alloc(), 10)?;
    let longest = Longest::new(DistanceHeap::new());
    plan(
        rt,
        "ten factors, longest, heap, orders of 65535",
        &mut Planner::new(longest, SearchHeap::new()),
        &ten,
        65535,
    )?;
    let pair = Pair::new(DistanceHeap::new(), 0, 1);
    plan(
        rt,
        "ten factors, pair, row, orders of 1",
        &mut Planner::new(pair, Row::new()),
        &ten,
        1,
    )?;
    let longest = Longest::new(DistanceHeap::new());
    let pair = Pair::new(DistanceHeap::new(), 0, 1);
    plan(
        rt,
        "ten factors, greater, row, orders of 65535",
        &mut Planner::new(Greater::new(longest, pair), Row::new()),
        &ten,
        65535,
    )
}
