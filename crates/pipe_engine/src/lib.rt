//! Runs of a program on several threads: workers that share a hall, each on a thread of its own (Lee et
//! al., "On-the-Fly Pipeline Parallelism", SPAA 2013). `run` is the engine: it opens the hall, lets the
//! workers run the loop, keeps the logs of the shards, reports the races that their histories have
//! found, and runs `final`.
#![tactic(auto)]

mod ending;
mod final_cells;
pub mod over;
pub mod run;
pub mod workers;
