//! Values on the heap, which move by their pointers.
#![tactic(auto)]

pub mod kept;
