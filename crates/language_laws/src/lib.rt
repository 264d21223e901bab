//! Laws of the programs that sources spell, and a worked example. There is no code here: each public
//! function has an empty body, and its contract is the law or the example.
#![tactic(auto)]

pub mod examples;
pub mod marks;
pub mod spellable;
