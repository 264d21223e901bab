//! What the rule of a hall is about. It has no bytes.

use crate::carrier::Carrier;
use frame_book::book::Book;
use om_shared::writer::OmWriter;
use pipe_model::access::Accesses;
use std::snapshot::Snapshot;

/// What a hall was opened with: its book, and the accesses before the run.
#[derive(Drop)]
pub struct Opening<M: Carrier> {
    /// The book without events.
    pub book: Snapshot<Book<M, OmWriter>>,
    /// The accesses before the run.
    pub before: Snapshot<Accesses>,
}
