// A factored planning task: its tables, its states and its steps.
#![tactic(auto)]

pub mod factor;
pub mod limits;
mod lookup;
pub mod row;
pub mod state;
mod states;
mod step;
mod targets;
pub mod task;
