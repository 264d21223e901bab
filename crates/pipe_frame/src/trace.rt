//! The accesses of a running instance.

use crate::past::Past;
use pipe_model::ticket::Entry;

/// The accesses of one instance, in order. Only contracts see them, so they take no memory. At run time
/// the accesses are in the logs of the shards, or in the events of a play.
pub type Trace = Past<Entry>;
