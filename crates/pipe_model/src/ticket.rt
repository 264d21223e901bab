//! Log entries with tickets. A ticket is a point in the order of all entries: if one entry happened
//! before another, the later one has the greater ticket.

use crate::access::Access;
use crate::event::Event;
use crate::list::ListOf;
use crate::node::NodeId;

/// An access in the trace of the instance that made it.
#[derive(Clone, Copy)]
pub struct Entry {
    /// When the access was made.
    pub ticket: u64,
    /// The access.
    pub access: Access,
}

/// An access in the log of a shard. The cells of a shard are those whose numbers have the same
/// remainder modulo the number of shards.
#[derive(Clone, Copy)]
pub struct ShardEntry {
    /// When the access was made.
    pub ticket: u64,
    /// The instance that made it.
    pub node: NodeId,
    /// The access.
    pub access: Access,
}

/// An event other than an access, in the log of the scheduler's book.
#[derive(Clone, Copy, PartialEq, Eq)]
pub struct BookEntry {
    /// When the event happened.
    pub ticket: u64,
    /// The event.
    pub event: Event,
}

/// The accesses to the cells of one shard, in order.
pub type ShardLog = ListOf<ShardEntry>;

/// The events that are not accesses, in order.
pub type BookLog = ListOf<BookEntry>;
