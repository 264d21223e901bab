//! Why a file is not a list of numbers within the bounds.

ghost use Rattle.std.specs.Prelude.{◌≡◌};
ghost use Rattle.pipe_io.specs.declared.input_fault.InputFault.TheVariants as faults;

use std::alloc::{AllocError, AllocFailed};
use thiserror::Error;

/// What is wrong with an input file. A fault at a byte has that byte's offset, from 0; the first
/// such fault counts.
#[derive(Clone, Copy, PartialEq, Eq, Debug, Error)]
pub enum InputFault {
    /// This byte is neither in a number nor a separator. After a `-` at the end of the file, the
    /// offset is the file's length.
    #[error("byte {0} is neither in a number nor a separator")]
    BadByte(u32),
    /// The number that begins here is outside the range of `i64`.
    #[error("the number at byte {0} is too wide")]
    TooWide(u32),
    /// The number that begins here is number 1,048,577.
    #[error("the number at byte {0} is one too many")]
    TooMany(u32),
    /// The file has more than 16,777,216 bytes.
    #[error("the input is too long")]
    TooLong,
    /// Out of memory.
    #[error("out of memory")]
    NoMemory,
}

impl From<AllocError> for InputFault {
    ghost from_gives = { λ _ fault. fault ≡ faults.NoMemory };

    fn from(_refused: AllocError) -> Self {
        InputFault::NoMemory
    }
}

impl<T: Drop> From<AllocFailed<T>> for InputFault {
    ghost from_gives = { λ _ fault. fault ≡ faults.NoMemory };

    fn from(_refused: AllocFailed<T>) -> Self {
        InputFault::NoMemory
    }
}
