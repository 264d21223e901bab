//! The values of a program's cells, in one or several shards. Contracts relate them to the accesses
//! that were made.
#![tactic(auto)]

pub mod cells;
mod initial_values;
pub mod law;
pub mod shard;
