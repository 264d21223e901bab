//! The left parent of a stage instance, and the last instance of the left column that precedes it (Xu,
//! Lee and Agrawal, "Efficient Parallel Determinacy Race Detection for Two-Dimensional Dags", PPoPP
//! 2018).
#![tactic(auto)]

pub mod parents;
pub mod search;
pub mod started;
