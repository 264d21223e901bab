//! Why a text is no record.

ghost use Rattle.std.specs.Prelude.{◌≡◌};
ghost use Rattle.record_parser.specs.declared.fault.RecordFault.TheVariants as faults;

use std::alloc::{AllocError, AllocFailed};
use thiserror::Error;

/// What is wrong with the text of a record.
#[derive(Clone, Copy, PartialEq, Eq, Debug, Error)]
pub enum RecordFault {
    /// The line with this number, counted from 0, has none of the forms that a record's lines have; it
    /// is the first one.
    #[error("line {0} is no line of a record")]
    BadLine(u32),
    /// The text has more than 67,108,864 bytes.
    #[error("the record is too long")]
    TooLong,
    /// Out of memory.
    #[error("out of memory")]
    NoMemory,
}

impl From<AllocError> for RecordFault {
    ghost from_gives = { λ _ fault. fault ≡ faults.NoMemory };

    fn from(_refused: AllocError) -> Self {
        RecordFault::NoMemory
    }
}

impl<T: Drop> From<AllocFailed<T>> for RecordFault {
    ghost from_gives = { λ _ fault. fault ≡ faults.NoMemory };

    fn from(_refused: AllocFailed<T>) -> Self {
        RecordFault::NoMemory
    }
}
