//! From the end of a hall to the headline: what `close` of `pipe_hall` and `Book::entries` ensure are
//! the premises of `hall_laws`. The laws of a run, its cells and its races also ask that no token is
//! out: of a finished book that is a law of `hall_laws`, and of a stopped one no clause says it.
//!
//! There is no code here. Each public function has an empty body, and its contract is one law;
//! `specs/` states the laws, and `proofs/` proves them.
#![tactic(auto)]

pub mod programs;
pub mod reports;
pub mod runs;
