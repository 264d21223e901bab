//! What makes the calls of a script to the scheduler's book: a payload that knows how its instances end,
//! and a player that keeps the tokens, so that it knows what each call requires.
#![tactic(auto)]

pub mod plan;
pub mod play;
pub mod program;
