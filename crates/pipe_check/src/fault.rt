//! Why the checker rejects a program.

ghost use Rattle.std.specs.Prelude.{◌≡◌};
ghost use Rattle.pipe_check.specs.declared.fault.CheckFault.TheVariants as faults;

use pipe_model::memory::NoMemory;
use thiserror::Error;

/// The first rule that a program breaks. A fault at a mark carries the mark's number, counted from
/// 0 in the order of the text. A mark is a name, `iter`, or the word of a stage statement.
#[derive(Clone, Copy, PartialEq, Eq, Debug, Error)]
pub enum CheckFault {
    /// A used name is neither a cell declared so far nor a local in scope.
    #[error("the name at mark {0} is not declared")]
    Unknown(u32),
    /// A declared name is a cell already, or the name of an earlier `let` of the same part.
    #[error("the name at mark {0} is declared twice")]
    Twice(u32),
    /// A limit is out of its range: 1 the iterations, 2 the stages, 3 the product of the two, 4 the
    /// steps, 5 the emitted numbers. Limits come before all marks.
    #[error("limit {0} is out of its range")]
    LimitOut(u32),
    /// A stage statement is outside the loop's body, or `iter` is outside the loop.
    #[error("the word at mark {0} is outside the loop")]
    PipeOutside(u32),
    /// More than 65,536 cells are declared so far, array elements counted.
    #[error("with the cell at mark {0} there are too many")]
    TooManyCells(u32),
    /// The `let` is the 65th of its part.
    #[error("with the local at mark {0} there are too many")]
    TooManyLocals(u32),
    /// A plain cell or a local has an index.
    #[error("the name at mark {0} has an index and is no array")]
    NotAnArray(u32),
    /// An array has no index.
    #[error("the array at mark {0} needs an index")]
    NeedsIndex(u32),
    /// An array is declared without elements.
    #[error("the array at mark {0} has no elements")]
    ZeroSize(u32),
    /// Out of memory.
    #[error("out of memory")]
    NoMemory,
}

impl From<NoMemory> for CheckFault {
    ghost from_gives = { λ _ fault. fault ≡ faults.NoMemory };

    fn from(_refused: NoMemory) -> Self {
        CheckFault::NoMemory
    }
}
