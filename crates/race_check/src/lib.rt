// The check of a trace, event by event: is it race-free, and was there one memory?
#![tactic(auto)]

mod clocks;
mod history;
mod state;
mod verdicts;
mod whole;

pub use state::Check;
pub use whole::{Unchecked, check};
