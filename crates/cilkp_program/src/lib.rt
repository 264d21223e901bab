//! The top call of the program `cilkp`, `call::cilkp`, over its words, files and a sink.
#![tactic(auto)]

pub mod call;
pub mod law;
