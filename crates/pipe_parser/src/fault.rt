//! Why a reader of symbols stops.

ghost use Rattle.std.specs.Prelude.{◌≡◌};
ghost use Rattle.pipe_parser.specs.declared.fault.SyntaxFault.TheVariants as faults;

use std::alloc::AllocError;

/// Why symbols are no program, with the number of symbols from the first that breaks a rule to the
/// end.
#[derive(Clone, Copy)]
pub enum SyntaxFault {
    /// The symbol may not come there; 0 means that the symbols end too early.
    Unexpected(usize),
    /// With the symbol more than 64 brackets are open.
    TooDeep(usize),
    /// The symbol is number 257 of a full expression.
    TooLong(usize),
    /// Out of memory. Any reader that allocates may return it.
    NoMemory,
}

impl From<AllocError> for SyntaxFault {
    ghost from_gives = { λ _ fault. fault ≡ faults.NoMemory };

    fn from(_refused: AllocError) -> Self {
        SyntaxFault::NoMemory
    }
}
