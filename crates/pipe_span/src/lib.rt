//! Work and span of a pipeline whose instances have weights, and the heaviest path of its dag.
#![tactic(auto)]

mod entry;
pub mod heaviest;
mod last;
pub mod law;
mod left_parent;
mod row;
mod rows;
mod trace;
pub mod weigh;
