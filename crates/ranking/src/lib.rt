// Rankings of a task's facts: the file that lists one, the check that it may be relied on, and the comparison of states by it.
#![tactic(auto)]

mod answers;
mod chains;
mod check;
mod find;
mod goals;
pub mod judge;
pub mod listing;
pub mod order;
mod read;
mod replies;
mod serves;
mod wanted;
