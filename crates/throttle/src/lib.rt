//! Throttling (Lee et al., "On-the-Fly Pipeline Parallelism", SPAA 2013): an iteration begins only
//! while it can take a token from a pool, and gives it back when it ends. So no more iterations are
//! alive than the pool has tokens.
#![tactic(auto)]

pub mod pool;
