//! Laws of schedules, the control part, starts, histories and tickets of every pipeline.
//!
//! There is no code here. Each public function has an empty body, and its contract is one law about
//! the definitions of `pipe_model`; `specs/` states the laws, and `proofs/` proves them. No law needs
//! anything of the language.
#![tactic(auto)]

pub mod cell_histories;
pub mod control;
pub mod schedules;
pub mod starts;
pub mod tickets;
