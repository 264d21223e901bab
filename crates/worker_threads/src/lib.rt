//! Workers of any hall, each on a thread of its own (Lee et al., "On-the-Fly Pipeline Parallelism", SPAA
//! 2013): the deques that they share, a seat beside each worker, and the account of the tokens that they
//! leave.
#![tactic(auto)]

pub mod drive;
pub mod lanes;
pub mod task_test;
