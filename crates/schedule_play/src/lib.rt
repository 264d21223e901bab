//! Plays any schedule of a program on one thread, one event a turn.
#![tactic(auto)]

mod alive_list;
mod changes;
pub mod choices;
pub mod examples;
mod insertion_log;
mod instance;
mod loop_play;
mod one_access;
mod opening;
mod play;
pub mod player;
pub mod program_play;
pub mod runner;
mod running_instance;
mod running_iteration;
mod schedule;
pub mod turns;
