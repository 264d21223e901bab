//! The end of a program: after `init` if it trapped, and otherwise after the loop, with `final` if it
//! runs.
#![tactic(auto)]

pub mod ends;
pub mod law;
