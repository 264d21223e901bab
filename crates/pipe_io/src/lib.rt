//! The outside of the program: files that are read part by part, sinks that take a text part by
//! part, the real ones and doubles in memory; and the numbers of an input file.
#![tactic(auto)]

pub mod bounds;
pub mod decimal;
pub mod fault_count;
pub mod fault_plan;
pub mod files;
pub mod input_fault;
pub mod law;
pub mod mem_files;
pub mod mem_sink;
pub mod numbers;
mod numerals;
pub mod real;
pub mod sink;
pub mod whole;
