//! The cells of a program in shards, each with the log of the accesses to it and the history of each cell.
#![tactic(auto)]

pub mod found;
pub mod shard;
mod shard_opening;
