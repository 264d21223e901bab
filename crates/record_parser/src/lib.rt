//! Reads the text of a record: the events of a run log, one a line, after lines of the run's outcome.
#![tactic(auto)]

pub mod bounds;
pub mod fault;
pub mod law;
mod log_line;
mod log_word;
mod names;
mod numbers;
mod outcome_line;
pub mod parse;
mod split;
