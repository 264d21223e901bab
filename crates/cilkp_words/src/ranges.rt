//! The ranges of the numbers on the command line, and their defaults. Those of the generated
//! workload are in `pipe_gen`.

/// The most workers. The least is 1.
pub const MOST_WORKERS: u32 = 64;
/// The number of workers if the option is not given.
pub const DEFAULT_WORKERS: u32 = 4;
/// The greatest throttling limit. The least is 1.
pub const MOST_THROTTLE: u32 = 1_024;
/// The throttling limit for each worker if the option is not given.
pub const THROTTLE_PER_WORKER: u32 = 4;
/// The seed of `bench` and `play` if the option is not given.
pub const DEFAULT_SEED: u32 = 1;
/// The size of the workload if the option is not given.
pub const DEFAULT_SIZE: u32 = 1_000;
