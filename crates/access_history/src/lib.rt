//! The access history of a cell: its last writer and two of its readers, which are enough to find
//! the first race of the cell (Xu, Lee and Agrawal, "Efficient Parallel Determinacy Race Detection
//! for Two-Dimensional Dags", PPoPP 2018).
#![tactic(auto)]

pub mod cell_accesses;
pub mod history;
