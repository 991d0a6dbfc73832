// Work for the benchmark in bench/: a heap is filled with keys and drained, again and again.
#![tactic(auto)]

use lists::heaps::SearchHeap;
use lists::keys::SearchKey;
use lists::waiting::{CAPACITY, WaitingList};
use samples::random::Random;

// Puts a random key under every number.
fn fill(heap: &mut SearchHeap, random: &mut Random) {
    for entry in 0..CAPACITY as u16 {
        let number = random.next();
        let key = SearchKey {
            sum: ((number >> 40) & 0xffff) as u32,
            estimate: ((number >> 20) & 0xff) as u32,
            entry,
        };
        let _ = heap.put(entry as usize, key);
    }
}

// Takes every number, and gives a sum over the order in which they came.
fn drain(heap: &mut SearchHeap, start: u64) -> u64 {
    let mut sum = start;
    for _ in 0..CAPACITY {
        if let Some(number) = heap.take() {
            sum = sum.wrapping_mul(31).wrapping_add(number as u64);
        }
    }
    sum
}

#[unsafe(no_mangle)]
pub extern "C" fn fill_and_drain(seed: u64, rounds: u32) -> u64 {
    let mut heap = SearchHeap::new();
    let mut random = Random { state: seed };
    let mut sum = 0;
    for _ in 0..rounds {
        fill(&mut heap, &mut random);
        sum = drain(&mut heap, sum);
    }
    sum
}
