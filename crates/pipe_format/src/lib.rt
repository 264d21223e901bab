//! The canonical text of a program.
#![tactic(auto)]

mod expression;
pub mod law;
pub mod program;
mod statement;
mod text;
