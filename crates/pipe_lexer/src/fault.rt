//! Why a source has no tokens within the language's bounds.

ghost use Rattle.std.specs.Prelude.{◌≡◌};
ghost use Rattle.pipe_lexer.specs.declared.fault.LexFault.TheVariants as faults;

use std::alloc::AllocError;
use thiserror::Error;

/// What is wrong with a source. A fault at a byte of the text has that byte's offset, from 0; the
/// first such fault counts.
#[derive(Clone, Copy, PartialEq, Eq, Debug, Error)]
pub enum LexFault {
    /// Neither a blank nor a comment nor a token begins here.
    #[error("no token begins at byte {0}")]
    BadByte(u32),
    /// The number that begins here is above 9223372036854775807.
    #[error("the number at byte {0} is too wide")]
    TooWide(u32),
    /// The source has more than 1,048,576 bytes.
    #[error("the source is too long")]
    SourceTooLong,
    /// The name that begins here has more than 64 bytes.
    #[error("the name at byte {0} is too long")]
    NameTooLong(u32),
    /// Out of memory.
    #[error("out of memory")]
    NoMemory,
}

impl From<AllocError> for LexFault {
    ghost from_gives = { λ _ fault. fault ≡ faults.NoMemory };

    fn from(_refused: AllocError) -> Self {
        LexFault::NoMemory
    }
}
