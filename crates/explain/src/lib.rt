// Judgements in plain words, for a person.
#![tactic(auto)]

mod advice;
pub mod display;
pub mod explanation;
