//! Flat code of programs, for a machine that runs it instance by instance.
#![tactic(auto)]

mod cell_ranges;
pub mod code;
pub mod code_bounds;
pub mod decoded;
mod expression;
mod height;
pub mod instr;
mod locals;
pub mod lower;
mod statement;
