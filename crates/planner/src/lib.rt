// A planner: it looks for a cheapest plan of a task, by calls.
#![tactic(auto)]

pub mod call;
pub mod counts;
mod entry;
pub mod phase;
pub mod planner;
mod table;
