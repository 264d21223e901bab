//! Tokens of running instances.

use dep_fold::folded::Folded;
use pipe_model::marks::Marks;

/// The right to run a stage instance, which nothing else gives. It cannot be copied, so no instance
/// runs twice. From the call of the scheduler that returns it until one that takes it, the instance
/// is out; that of a token that was dropped stays out for good.
#[derive(Drop)]
pub struct FrameToken<M> {
    /// The iteration of the instance.
    pub iteration: u32,
    /// The index of the instance in its column.
    pub index: u32,
    /// The ticket of the last event or access of the iteration.
    pub now: u64,
    /// The last index of the left column that precedes the instance; 0 in iteration 0.
    pub joined: u32,
    /// The counter of the left neighbour, as it was read last.
    pub folded: Folded,
    /// The elements of the instance in the order lists.
    pub marks: Marks,
    /// What runs the instance.
    pub payload: M,
}

/// A task for a worker.
#[derive(Drop)]
pub enum Task<M> {
    /// To begin the next iteration.
    Begin,
    /// To run this instance.
    Resume(FrameToken<M>),
}
