//! Plain types of pipeline programs and their runs, and in `specs/` the definitions that every
//! other crate cites.
#![tactic(auto)]

pub mod access;
pub mod bounds;
pub mod column;
pub mod event;
pub mod exit_status;
pub mod levels;
pub mod list;
pub mod marks;
pub mod memory;
pub mod name;
pub mod node;
pub mod operator_codes;
pub mod orders;
pub mod region;
pub mod report;
pub mod sign_bytes;
pub mod stage;
pub mod status;
pub mod symbol;
pub mod ticket;
pub mod token;
pub mod trap;
pub mod tree;
pub mod word_codes;
