//! Lazy enabling (Lee et al., "On-the-Fly Pipeline Parallelism", SPAA 2013): a worker checks its right
//! neighbour only when its own iteration cannot go on, and not after each stage instance.
#![tactic(auto)]

pub mod look;
