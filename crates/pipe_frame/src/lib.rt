//! Tokens of running stage instances, the results of the scheduler's calls, and the scheduler as a
//! worker sees it (Lee et al., "On-the-Fly Pipeline Parallelism", SPAA 2013). Also lists that only
//! contracts see, such as the accesses of an instance.
#![tactic(auto)]

pub mod hall;
pub mod past;
pub mod results;
pub mod stands;
pub mod token;
pub mod trace;
