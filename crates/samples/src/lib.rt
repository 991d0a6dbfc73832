// What the trials and the benchmarks have in common: the sample files, random numbers, and a judgement as it is printed at length.
#![tactic(auto)]

pub mod files;
pub mod random;
pub mod trial;
