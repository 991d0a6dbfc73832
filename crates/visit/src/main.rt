// visit < INPUT: plans a visit. The input holds a site file and a ranking, each behind two bytes of length.
#![tactic(auto)]

use estimators::greater::Greater;
use estimators::longest::Longest;
use estimators::pair::Pair;
use lines::{Line, ROW, Verdict};
use lists::heaps::{DistanceHeap, SearchHeap};
use lists::waiting::WaitingList;
use planner::call::Call;
use planner::phase::{Phase, Word};
use planner::planner::Planner;
use site::input::split_input;
use site::limits::FILE_BYTES;
use std::io::{Read, Write};

// Longest and the pair of factors 0 and 1, and the heap for all lists.
type Visit = Planner<Greater<Longest<DistanceHeap>, Pair<DistanceHeap>>, SearchHeap>;

// How many takes an order asks for.
const TAKES: u16 = 64;

// So many orders end every run: it takes each of its entries once at most.
const ORDERS: u16 = 17;

fn print_line(rt: &HostRuntime, line: Line) -> anyhow::Result<()> {
    let mut row = [0; ROW];
    let length = line.write(&mut row);
    rt.stdout().write_all(&row[..length])?;
    Ok(())
}

// Makes a call, and reports it if it is refused.
fn ask(rt: &HostRuntime, planner: &mut Visit, call: Call<'_>) -> anyhow::Result<()> {
    planner
        .call(call)
        .or_else(|refusal| print_line(rt, Line::Refused(refusal.into())))
}

// Offers the ranking, if there is one, and runs to the end. A refused ranking is reported, and the run goes without it.
fn run(rt: &HostRuntime, planner: &mut Visit, ranking: &[u8]) -> anyhow::Result<()> {
    if !ranking.is_empty() {
        ask(rt, planner, Call::Offer(ranking))?;
    }
    ask(rt, planner, Call::Start)?;
    for _ in 0..ORDERS {
        if let Phase::Running = planner.phase() {
            ask(rt, planner, Call::Work(TAKES))?;
        }
    }
    Ok(())
}

// The cost and the steps of the plan.
fn print_plan(rt: &HostRuntime, planner: &Visit) -> anyhow::Result<()> {
    let Ok(cost) = planner.cost() else {
        return Ok(());
    };
    print_line(rt, Line::Cost(cost))?;
    for label in (0..u16::MAX).map_while(|position| planner.label(position).ok()) {
        print_line(rt, Line::Step(label))?;
    }
    Ok(())
}

// The verdict on how the run ended. Without a run that ended there is no plan.
fn verdict(word: Option<Word>) -> Verdict {
    match word {
        Some(Word::Plan { .. }) => Verdict::Plan,
        Some(Word::NoPlan) | None => Verdict::NoPlan,
        Some(Word::Full) => Verdict::Full,
    }
}

fn print_result(rt: &HostRuntime, planner: &Visit) -> anyhow::Result<()> {
    print_line(rt, Line::Verdict(verdict(planner.word())))?;
    print_plan(rt, planner)?;
    let counts = planner.counts();
    print_line(rt, Line::Taken(counts.taken))?;
    print_line(rt, Line::Entries(counts.entries))?;
    print_line(rt, Line::Tried(counts.tried))
}

fn main(rt: HostRuntime) -> anyhow::Result<()> {
    let mut input = Vec::new(rt.alloc());
    rt.stdin().take(FILE_BYTES as u64).read_to_end(&mut input)?;
    let (site, ranking) = split_input(&input);
    let longest = Longest::new(DistanceHeap::new());
    let pair = Pair::new(DistanceHeap::new(), 0, 1);
    let mut planner = Planner::new(Greater::new(longest, pair), SearchHeap::new());
    if let Err(refusal) = planner.call(Call::Load(site)) {
        return print_line(&rt, Line::Refused(refusal.into()));
    }
    run(&rt, &mut planner, ranking)?;
    print_result(&rt, &planner)
}
