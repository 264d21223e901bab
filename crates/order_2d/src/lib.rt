//! Down-first and right-first, the two orders of stage instances that together say which instances
//! precede which (Xu, Lee and Agrawal, "Efficient Parallel Determinacy Race Detection for
//! Two-Dimensional Dags", PPoPP 2018).
#![tactic(auto)]

pub mod late_list;
pub mod late_orders;
pub mod list_writer;
mod numbers;
pub mod plain_orders;
pub mod replay;
pub mod rows;
mod starts;
pub mod two_orders;
pub mod two_passes;
