//! Events of a run.

use crate::access::Access;
use crate::column::{ColumnEnd, Columns};
use crate::list::ListOf;
use crate::node::Kind;

/// One step of the scheduler's core. The number is the iteration's.
#[derive(Clone, Copy, PartialEq, Eq)]
pub enum Event {
    /// An iteration begins, in its instance 0.
    Begin(u32),
    /// The running instance makes an access.
    Access(u32, Access),
    /// The running instance ends, and names the next stage with its kind and number.
    Advance(u32, Kind, i64),
    /// The named stage is entered.
    Enter(u32),
    /// The iteration ends.
    Finish(u32, ColumnEnd),
    /// The run is stopped.
    Stop,
}

/// Events in the order in which they happened.
pub type Events = ListOf<Event>;

/// A run: its events, and the columns that it has made.
#[derive(Drop)]
pub struct RunLog {
    /// The columns that the events make, with their ends.
    pub columns: Columns,
    /// The events, in the order in which they happened.
    pub events: Events,
}
