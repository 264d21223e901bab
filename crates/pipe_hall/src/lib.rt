//! The scheduler's book and the cells, shared by workers: one table of locks, with the book and
//! sixteen shards of cells in its slots.
#![tactic(auto)]

pub mod seat;

pub use hall_calls::{close, hall};
