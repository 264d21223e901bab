//! Bounds on an input file.

/// The most bytes of an input.
pub const LONGEST_INPUT: usize = 16_777_216;
/// The most numbers of an input.
pub const MOST_NUMBERS: usize = 1_048_576;
