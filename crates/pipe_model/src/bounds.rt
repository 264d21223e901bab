//! Bounds on programs and their sources, and the ranges of limits.

/// The most bytes of a source.
pub const LONGEST_SOURCE: usize = 1_048_576;
/// The most bytes of a name.
pub const LONGEST_NAME: usize = 64;
/// The most brackets that are open at once, of all kinds together.
pub const MOST_OPEN_BRACKETS: usize = 64;
/// The most symbols of a full expression, which is one that is not part of another.
pub const LONGEST_EXPRESSION: usize = 256;
/// The most marks, nodes of expressions and statements of a program together.
pub const LARGEST_PROGRAM: usize = 4_194_304;
/// The most cells, array elements counted.
pub const MOST_CELLS: u32 = 65_536;
/// The most locals of a part of a program.
pub const MOST_LOCALS: usize = 64;

/// The most iterations that a program may allow. The least is 1.
pub const MOST_ITERATIONS: i64 = 65_536;
/// The most stage instances of an iteration that a program may allow. The least is 1.
pub const MOST_STAGES: i64 = 4096;
/// The most stage instances that a program may allow in all its iterations.
pub const MOST_INSTANCES: i64 = 262_144;
/// The most steps of a stage instance that a program may allow. The least is 1.
pub const MOST_STEPS: i64 = 1_000_000;
/// The most emitted numbers that a program may allow.
pub const MOST_EMITS: i64 = 1_048_576;
