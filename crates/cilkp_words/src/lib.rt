//! The command line: which command its words ask for.
#![tactic(auto)]

pub mod commands;
pub mod examples;
mod line;
mod option_numbers;
pub mod ranges;
pub mod words;
