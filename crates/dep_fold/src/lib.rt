//! Dependency folding (Lee et al., "On-the-Fly Pipeline Parallelism", SPAA 2013): an iteration keeps
//! the stage counter that it read last from its left neighbour, and reads it again only if the kept
//! one does not let it go on.
#![tactic(auto)]

pub mod folded;

pub use pipe_model::stage::Counter;
