// Work for the benchmarks in bench/: estimators are made ready, and sites are planned, again and again.
#![tactic(auto)]

mod plan;
mod ready;
