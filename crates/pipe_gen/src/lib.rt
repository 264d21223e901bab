//! A workload that is generated from a seed and a size: a source and its input.
#![tactic(auto)]

pub mod choices;
pub mod examples;
pub mod workload;
