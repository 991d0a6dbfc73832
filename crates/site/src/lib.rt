// Site files: the commands of a file, the task that they describe, and why a file is refused.
#![tactic(auto)]

pub mod command;
pub mod commands;
mod draft;
pub mod input;
pub mod limits;
pub mod read;
pub mod refusal;
mod report;
mod tables;
pub mod words;
