// Both waiting lists side by side, on random rows of calls.
use lists::heaps::{DistanceHeap, SearchHeap};
use lists::keys::{DistanceKey, Key, SearchKey};
use lists::row::Row;
use lists::runs::{Answer, Request, serve};
use lists::waiting::{BeyondCapacity, WaitingList};
use samples::random::Random;
use std::fmt;

// A number below 1100, so that some are beyond the capacity.
fn number_of(random: u64) -> usize {
    ((random >> 24) % 1100) as usize
}

// Keys of few values, so that many tie.
fn search_key(random: u64) -> SearchKey {
    SearchKey {
        sum: ((random >> 36) & 15) as u32,
        estimate: ((random >> 40) & 3) as u32,
        entry: ((random >> 44) & 3) as u16,
    }
}

fn distance_key(random: u64) -> DistanceKey {
    DistanceKey {
        distance: ((random >> 36) & 31) as u32,
        fact: ((random >> 44) & 3) as u16,
    }
}

// A call: mostly a put, often a take, and now and then an emptying.
fn request<K>(random: u64, key: K) -> Request<K>
where
    K: Key,
{
    match random >> 58 {
        0 => Request::Empty,
        1..=23 => Request::Take,
        _ => Request::Put {
            number: number_of(random),
            key,
        },
    }
}

// An answer as a number, to be added up.
fn code(answer: Answer) -> u64 {
    match answer {
        Answer::Emptied => 1,
        Answer::Placed(Ok(())) => 2,
        Answer::Placed(Err(BeyondCapacity)) => 3,
        Answer::Taken(None) => 4,
        Answer::Taken(Some(number)) => (number as u64).saturating_add(5),
    }
}

// Makes the same call on two lists: the answer, if both give it.
fn same_answer<K: Key, A: WaitingList<K>, B: WaitingList<K>>(
    one: &mut A,
    other: &mut B,
    request: Request<K>,
) -> Option<Answer> {
    let first = serve(one, request);
    let second = serve(other, request);
    (first == second).then_some(first)
}

const CALLS: u32 = 20000;

// What came of a row of calls: how many answers were equal, and a sum over these.
#[derive(Clone, Copy, Default)]
struct Tally {
    equal: u32,
    sum: u64,
}

impl Tally {
    fn note(&mut self, answer: Option<Answer>) {
        if let Some(answer) = answer {
            self.equal = self.equal.saturating_add(1);
            self.sum = self.sum.wrapping_mul(31).wrapping_add(code(answer));
        }
    }
}

impl fmt::Display for Tally {
    fn fmt<W: fmt::Write>(&self, f: &mut fmt::Formatter<W>) -> fmt::Result {
        let Tally { equal, sum } = *self;
        write!(f, "{equal} of {CALLS} answers equal, sum {sum}")
    }
}

// Makes random calls on two lists, where `key` makes a key of a random number.
fn try_lists<K: Key, A: WaitingList<K>, B: WaitingList<K>, F: Fn(u64) -> K>(
    rt: &HostRuntime,
    name: &str,
    seed: u64,
    one: &mut A,
    other: &mut B,
    key: F,
) -> anyhow::Result<()>
    requires { F.IsAlwaysCallable key }
{
    let mut tally = Tally::default();
    let mut random = Random { state: seed };
    for _ in 0..CALLS {
        let number = random.next();
        tally.note(same_answer(one, other, request(number, key(number))));
    }
    println!(rt; "{name}: {tally}")?;
    Ok(())
}

pub(crate) fn try_search_lists(rt: &HostRuntime) -> anyhow::Result<()> {
    let mut heap = SearchHeap::new();
    let mut row = Row::new();
    try_lists(
        rt,
        "heap and row by search keys",
        1,
        &mut heap,
        &mut row,
        search_key,
    )
}

pub(crate) fn try_distance_lists(rt: &HostRuntime) -> anyhow::Result<()> {
    let mut heap = DistanceHeap::new();
    let mut row = Row::new();
    try_lists(
        rt,
        "heap and row by distance keys",
        2,
        &mut heap,
        &mut row,
        distance_key,
    )
}
