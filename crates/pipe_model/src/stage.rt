//! How stage instances end, and how far an iteration is.

use crate::trap::Trap;

/// How an instance ended.
#[derive(Clone, Copy, PartialEq, Eq, Debug)]
pub enum StageEnd {
    /// By `pipe_wait`: the iteration waits for its left neighbour to pass this stage number, and
    /// goes on there.
    Wait(i64),
    /// By `pipe_continue`: the iteration goes on at this stage number.
    Continue(i64),
    /// At the end of the loop's body.
    End,
    /// By a false test, which closes the loop.
    Closed,
    /// By a trap, which ends the iteration.
    Trap(Trap),
    /// Between two of its actions, because the run was stopped.
    Stopped,
}

/// The stage counter of an iteration, which its right neighbour reads to see whether it may go on.
#[derive(Clone, Copy)]
pub enum Counter {
    /// The number of the last stage that the iteration has named; 0 until it names one.
    At(i64),
    /// The iteration has ended.
    Ended,
}
