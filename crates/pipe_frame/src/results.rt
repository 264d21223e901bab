//! Results of the scheduler's calls.

use crate::token::FrameToken;

/// Whether an iteration began.
#[derive(Drop)]
pub enum Begun<M> {
    /// One began, and this is the token of its instance 0.
    Started(FrameToken<M>),
    /// As many iterations are alive as the throttling limit allows.
    Throttled,
    /// The loop is closed.
    Closed,
    /// Instance 0 of the last iteration has not ended.
    NotYet,
    /// The run was stopped.
    Stopped,
}

/// How an iteration goes on after an instance.
#[derive(Drop)]
pub enum Next<M> {
    /// Its next instance has started.
    Go(FrameToken<M>),
    /// It waits for its left neighbour.
    Suspended,
    /// It has ended.
    Ended,
    /// The run was stopped.
    Stopped,
}

/// What a worker without tasks can do.
#[derive(Drop)]
pub enum Rescue<M> {
    /// To run this instance.
    Token(FrameToken<M>),
    /// To begin the next iteration.
    MayBegin,
    /// Nothing now.
    Nothing,
    /// Nothing more, since the run is finished.
    Finished,
    /// Nothing more, since the run was stopped.
    Stopped,
}

/// How an iteration goes on after an instance, if its next instance is started by another call.
#[derive(Clone, Copy)]
pub enum Named {
    /// It has named its next stage.
    Waits,
    /// It has ended.
    Ended,
    /// The run was stopped.
    Stopped,
}

/// The result of an access.
#[derive(Clone, Copy, PartialEq, Eq)]
pub enum Reply {
    /// The value of the cell was read.
    Value(i64),
    /// The value was written.
    Done,
    /// The run was stopped, and no access was made.
    Stopped,
}
