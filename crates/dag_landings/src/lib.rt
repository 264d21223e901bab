//! Which instances of the next column an instance of the pipeline dag precedes (Lee et al., "On-the-Fly
//! Pipeline Parallelism", SPAA 2013).
#![tactic(auto)]

pub mod landing;
