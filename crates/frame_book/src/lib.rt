//! The scheduler's book: the state of a run of a pipeline, as one value. Each of its calls is an
//! event of the run, or says why there is none. It throttles iterations, keeps the tokens of those
//! that wait, and folds dependencies (Lee et al., "On-the-Fly Pipeline Parallelism", SPAA 2013); it
//! starts the instances in two order lists (Xu, Lee and Agrawal, PPoPP 2018).
#![tactic(auto)]

pub mod book;
pub mod law;
mod ledger;
pub mod payload;
mod rooms;
mod start;
