//! Labels for order maintenance, and how a crowded part of the labels is labelled anew (Bender,
//! Cole, Demaine, Farach-Colton and Zito, "Two Simplified Algorithms for Maintaining Order in a
//! List", ESA 2002): the smallest sparse range of labels around an element is chosen, and its
//! elements are spread evenly over it.
#![tactic(auto)]

pub mod error;
pub mod label_range;
pub mod links;
pub mod spreading;
mod stretch;
mod walk;
