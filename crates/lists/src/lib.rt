// Waiting lists over any sort of key: a row that is scanned, and an indexed heap.
#![tactic(auto)]

mod heap;
pub mod heaps;
pub mod keys;
pub mod row;
pub mod runs;
pub mod waiting;
