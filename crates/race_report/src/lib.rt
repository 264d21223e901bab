//! Reports of the races that access histories have found, and the lines of a run: its races, or its
//! output and its trap.
#![tactic(auto)]

pub mod gather;
pub mod outcome;
pub mod race_text;
