//! The calls of a hall: how it is opened, what workers and running instances do by their bare seats, and
//! how it is closed.
#![tactic(auto)]

pub mod close;
pub mod hall;
pub mod instance;
pub mod worker;
