//! Bounds on records.

/// The most bytes of a record.
pub const LONGEST_RECORD: usize = 67_108_864;
/// The greatest number of an iteration. A loop of that many iterations is closed by the one with this
/// number.
pub const LAST_ITERATION: u32 = 65_536;
