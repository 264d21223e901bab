//! Halls of programs: a book with a payload for each iteration that may be alive, two order lists with
//! room for every instance, and the cells after `init`.
#![tactic(auto)]

pub mod carried;
pub mod opening;
