//! What a machine keeps of an instruction whose access was refused.

use pipe_model::access::CellId;

/// What is left of an instruction whose access was refused, that access first.
#[derive(Clone, Copy)]
pub enum Pending {
    /// Nothing: no access was refused.
    Nothing,
    /// To read the cell and push its value.
    Read(CellId),
    /// To read the cursor for `more()`.
    More,
    /// To read the cursor for `take()`.
    Take,
    /// To write the first number to the cursor, and push the second, which `take()` returns.
    Advance(i64, i64),
    /// To write the number to the cell.
    Write(CellId, i64),
    /// To read the cell of the output, before this number is emitted.
    Emit(i64),
    /// To write the emitted number to the cell of the output.
    Output(i64),
}
