//! Lowers wave loops to pipelines: a loop that fills a grid, point by point, becomes a loop with one
//! wait for each row.
#![tactic(auto)]

pub mod fault;
mod form;
mod lower;
mod search;
pub mod wave;
