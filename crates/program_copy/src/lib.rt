//! Copies of the syntax trees of programs.
#![tactic(auto)]

pub mod copy;
