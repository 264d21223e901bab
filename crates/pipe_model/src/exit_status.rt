//! The statuses of calls, with which the program exits.

/// The command was carried out, and reports no race and no trap.
pub const FINISHED: u8 = 0;
/// The words are no command, or the checks refuse a file.
pub const REFUSED: u8 = 1;
/// Races are reported.
pub const RACES: u8 = 2;
/// There is no race, and a trap is reported.
pub const TRAPPED: u8 = 3;
/// A file could not be read.
pub const READ_FAULT: u8 = 4;
/// The text could not be written completely.
pub const WRITE_FAULT: u8 = 5;
