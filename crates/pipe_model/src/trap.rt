//! Traps: how execution ends at a step that cannot be made.

use crate::node::NodeId;

/// Why an iteration, `init` or `final` stopped early.
#[derive(Clone, Copy, PartialEq, Eq, Debug)]
pub enum Trap {
    /// A sum, difference, product, negative, quotient or implied stage number outside `i64`.
    Overflow,
    /// A divisor is 0.
    DivZero,
    /// An index outside its array.
    Index,
    /// The instance has no step of its budget left.
    Budget,
    /// The next stage's number is not above the current one.
    StageOrder,
    /// The iteration has had as many instances as the limit allows.
    StageLimit,
    /// `take()` when no input number is left.
    InputEnd,
    /// The loop goes on after as many iterations as the limit allows.
    IterLimit,
    /// `emit` after as many numbers as the limit allows.
    OutputLimit,
}

/// Where a trap occurred: in `init`, in a stage instance (with its stage number), or in `final`.
#[derive(Clone, Copy, PartialEq, Eq)]
pub enum TrapPlace {
    /// In `init`.
    Init,
    /// In a stage instance with this stage number.
    At(NodeId, i64),
    /// In `final`.
    Last,
}

/// A trap and its place.
#[derive(Clone, Copy, PartialEq, Eq)]
pub struct TrapAt {
    /// Where it occurred.
    pub place: TrapPlace,
    /// Why.
    pub trap: Trap,
}
