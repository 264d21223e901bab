//! The tasks of a worker: what it takes from its own deque and from those of the others, what it keeps
//! for later, and what it leaves to others (Lee et al., "On-the-Fly Pipeline Parallelism", SPAA 2013). No
//! token of a task is lost.
#![tactic(auto)]

pub mod tasks;
pub mod work_test;
