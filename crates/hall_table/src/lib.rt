//! The table that the threads of a hall share: one lock for the scheduler's book and one for each shard of
//! cells, and what a seat knows. Each step on it keeps the rule of a hall.
#![tactic(auto)]

pub mod carrier;
pub mod locks;
pub mod opening;
pub mod rule;
pub mod run_seat;
pub mod seat_place;
pub mod slot;
pub mod view;
pub mod witness;
