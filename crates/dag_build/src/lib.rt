//! The explicit dag of columns: which instances precede which, and the determinacy races of a list
//! of accesses.
#![tactic(auto)]

mod clear;
pub mod dag;
mod fronts;
mod jumps;
pub mod races;
