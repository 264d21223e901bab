//! Laws of programs: their pipelines, cells, work and schedules, and whole programs with `init` and
//! `final`.
//!
//! There is no code here. Each public function has an empty body, and its contract is one law about
//! the definitions of `pipe_model`; `specs/` states the laws, and `proofs/` proves them. An accepted
//! program of a law is any that breaks no rule, whether or not a source spells it.
#![tactic(auto)]

pub mod declared_cells;
pub mod examples;
pub mod pipelines;
pub mod whole_programs;
pub mod work;
