//! Programs from their text.
#![tactic(auto)]

mod depth;
mod expression;
mod fault;
mod full_expression;
pub mod law;
pub mod parse;
mod program;
mod statement;
mod symbols;
