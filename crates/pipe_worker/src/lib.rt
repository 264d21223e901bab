//! Workers: each runs stage instances, looks for more at its right neighbour, in its own deque, in the
//! deques of the others and in the scheduler's book, and returns once the run is over (Lee et al.,
//! "On-the-Fly Pipeline Parallelism", SPAA 2013).
#![tactic(auto)]

pub mod advance;
pub mod gate;
pub mod hold;
mod idle;
pub mod instance;
pub mod lent;
pub mod memory;
mod pace;
pub mod runs;
pub mod worker;
