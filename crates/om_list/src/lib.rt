//! A list for order maintenance (Bender, Cole, Demaine, Farach-Colton and Zito, "Two Simplified
//! Algorithms for Maintaining Order in a List", ESA 2002): new elements are inserted after given
//! ones, and the order of any two is decided by comparing two labels.
#![tactic(auto)]

pub mod insertion;
pub mod labels;
pub mod om_list;
