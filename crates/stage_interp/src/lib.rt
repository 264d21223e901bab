//! A machine that runs flat code, one stage instance at a time, with a budget of steps.
#![tactic(auto)]

mod access;
mod effect;
mod execution;
pub mod machine;
pub mod memory;
mod operators;
pub mod pending;
mod refusing;
mod run;
mod simple;
mod stack;
