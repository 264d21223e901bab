//! Bounds on flat code.

/// The most instructions of a program's code: twice the largest program and 4.
pub const LONGEST_CODE: u32 = 8_388_612;
/// The most numbers on the stack.
pub const HIGHEST_STACK: u32 = 256;
