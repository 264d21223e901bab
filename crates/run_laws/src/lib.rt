//! Laws of pipelines, their runs, the two orders of a run and the access histories.
//!
//! There is no code here. Each public function has an empty body, and its contract is one law about
//! the definitions of `pipe_model`; `specs/` states the laws, and `proofs/` proves them.
#![tactic(auto)]

pub mod behaviours;
pub mod examples;
pub mod histories;
pub mod logs;
pub mod orders;
pub mod runs;
pub mod serial_elision;
