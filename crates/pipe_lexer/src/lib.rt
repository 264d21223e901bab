//! Tokens of a source.
#![tactic(auto)]

mod bytes;
pub mod fault;
pub mod law;
mod number;
mod piece;
pub mod scan;
mod words;
