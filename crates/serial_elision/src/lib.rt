//! The serial elision of a program: `init`, the iterations one after the other, each to its end,
//! and `final`. The machine runs the code of the program over the cells, and accesses are recorded
//! as they happen.
#![tactic(auto)]

pub mod elision;
mod instance;
pub mod iterations;
pub mod law;
mod log;
pub mod outer_parts;
mod part;
pub mod prepared;
mod recorder;
pub mod traps;
