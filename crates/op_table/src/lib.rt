//! The binary operators of the language, in a table.
#![tactic(auto)]

pub mod operators;
pub mod rules;
pub mod table;
