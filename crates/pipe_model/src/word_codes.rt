//! The reserved words that the grammar names, by their index in the list of reserved words,
//! counted from 0.

/// `limits`
pub const LIMITS: u8 = 1;
/// `iterations`
pub const ITERATIONS: u8 = 2;
/// `stages`
pub const STAGES: u8 = 3;
/// `steps`
pub const STEPS: u8 = 4;
/// `emits`
pub const EMITS: u8 = 5;
/// `cell`
pub const CELL: u8 = 6;
/// `init`
pub const INIT: u8 = 7;
/// `pipe_while`
pub const PIPE_WHILE: u8 = 8;
/// `pipe_wait`
pub const PIPE_WAIT: u8 = 9;
/// `pipe_continue`
pub const PIPE_CONTINUE: u8 = 10;
/// `final`
pub const FINAL: u8 = 11;
/// `let`
pub const LET: u8 = 12;
/// `if`
pub const IF: u8 = 13;
/// `else`
pub const ELSE: u8 = 14;
/// `while`
pub const WHILE: u8 = 15;
/// `emit`
pub const EMIT: u8 = 16;
/// `more`
pub const MORE: u8 = 17;
/// `take`
pub const TAKE: u8 = 18;
/// `iter`
pub const ITER: u8 = 19;
