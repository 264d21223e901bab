//! Determinacy races of a run that has been logged, found as 2D-Order does (Xu, Lee and Agrawal,
//! "Efficient Parallel Determinacy Race Detection for Two-Dimensional Dags", PPoPP 2018).
#![tactic(auto)]

pub mod detect;
pub mod law;
mod logged_accesses;
mod started_run;
