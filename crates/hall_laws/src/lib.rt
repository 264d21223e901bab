//! Laws of closed halls: the merge of their logs is a run of the program, their histories report the
//! first races of that run, and a finished hall meets the headline.
//!
//! There is no code here. Each public function has an empty body, and its contract is one law about
//! a book and the logs, cells and histories of its shards; `specs/` states the laws, and `proofs/`
//! proves them.
#![tactic(auto)]

pub mod examples;
pub mod orders;
pub mod programs;
pub mod reports;
pub mod runs;
