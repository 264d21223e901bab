//! The rows of the scheduler's book, one for each iteration: what is kept of an iteration, questions
//! about all of them, and whether the counter of a left neighbour must be read.
#![tactic(auto)]

pub mod course;
pub mod folding;
pub mod places;
pub mod row;
pub mod rows;
