//! Work stealing: each worker has a deque of tasks, of which it pushes and pops at the back, and takes
//! tasks from the fronts of the other deques (Blumofe and Leiserson, "Scheduling Multithreaded
//! Computations by Work Stealing", JACM 1999). The deque is that of Chase and Lev ("Dynamic Circular
//! Work-Stealing Deque", SPAA 2005), by `crossbeam_deque`. Contracts count what goes in and comes out:
//! no task is lost or doubled.
#![tactic(auto)]

pub mod deques;
pub mod ends;
mod front;
mod protocol;
pub mod settle;
pub mod tally;
