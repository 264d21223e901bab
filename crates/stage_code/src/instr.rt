//! Instructions of flat code.

use pipe_model::access::CellId;

/// An instruction. Operands and values are on a stack of numbers; a target is an index of the whole
/// code. The three that take no step of the budget come last.
#[derive(Clone, Copy)]
pub enum Instr {
    /// Pushes the number.
    Push(i64),
    /// Pushes the local of this slot.
    Local(u16),
    /// Pushes the iteration's number.
    Iter,
    /// Pushes the cell's value.
    Read(CellId),
    /// Pops an index and pushes that element of the array with this first cell and size.
    ReadAt(CellId, u32),
    /// Pops two operands and pushes the value of the binary operator of this code.
    Binary(u8),
    /// Pops an operand and pushes the value of the unary operator of this code.
    Unary(u8),
    /// Pops a value; if it is 0, pushes 0 and jumps to the target.
    AndTest(u32),
    /// Pops a value; if it is not 0, pushes 1 and jumps to the target.
    OrTest(u32),
    /// Pushes 1 if an input number is left, and else 0.
    More,
    /// Pushes the next input number.
    Take,
    /// Pops a value into the slot.
    SetLocal(u16),
    /// Pops a value and writes it to the cell.
    Write(CellId),
    /// Pops a value and an index, and writes to that element of the array with this first cell and
    /// size.
    WriteAt(CellId, u32),
    /// Pops a value and emits it.
    Emit,
    /// Pops a value; if it is 0, jumps to the target.
    Branch(u32),
    /// Pops the value of the loop's test: 0 closes the loop.
    LoopTest,
    /// Pops the number of the next stage, which begins once the previous iteration has passed it.
    Wait,
    /// Pops the number of the next stage, which begins at once.
    Continue,
    /// As `Wait`, with the current number plus 1.
    WaitNext,
    /// As `Continue`, with the current number plus 1.
    ContinueNext,
    /// Replaces the topmost value by 1 if it is not 0.
    Truth,
    /// Jumps to the target.
    Jump(u32),
    /// Ends the part.
    End,
}

/// A part of a program, which has a start of its own in the code.
#[derive(Clone, Copy)]
pub enum Part {
    /// What runs before the loop.
    Init,
    /// An iteration of the loop: its test and its body.
    Pipe,
    /// What runs after the loop.
    Last,
}
