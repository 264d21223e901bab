//! What a slot of a hall holds.

ghost use Rattle.std.specs.Prelude.{◌≡◌};
ghost use Rattle.std.specs.Borrow.{sem};
ghost use Rattle.frame_book.specs.BookStates.{BookState};
ghost use Rattle.hall_shards.specs.ShardValues.{ShardValue};
ghost use Rattle.hall_table.specs.LentValues.{LendsBook, LendsShard};

use crate::carrier::Carrier;
use crate::witness::Witness;
use frame_book::book::Book;
use hall_shards::shard::Shard;
use om_shared::writer::OmWriter;
use pipe_frame::token::FrameToken;

/// The value of a slot.
#[derive(Drop)]
pub enum Slot<M: Carrier> {
    /// The book.
    Book(Book<M, OmWriter>),
    /// A shard.
    Shard(Shard),
    /// No slot holds this: a step records in it which token was given out.
    Token(Witness<FrameToken<M>>),
    /// The value is out.
    Out,
}

impl<M: Carrier> Slot<M> {
    /// Lends the book that the slot holds.
    pub fn book_mut(&mut self) -> &mut Book<M, OmWriter>
        requires there { (b : BookState) × (self.old ≡ Slot.Book b) }
        ensures* writes_back { sem 𝓛 (LendsBook M.row M.Stands self.entry result) }
        ensures value { self.old ≡ Slot.Book result.now }
    {
        match self {
            Slot::Book(book) => book,
            Slot::Shard(_) => unreachable!(),
            Slot::Token(_) => unreachable!(),
            Slot::Out => unreachable!(),
        }
    }

    /// Lends the shard that the slot holds.
    pub fn shard_mut(&mut self) -> &mut Shard
        requires there { (x : ShardValue) × (self.old ≡ Slot.Shard x) }
        ensures* writes_back { sem 𝓛 (LendsShard M.row M.Stands self.entry result) }
        ensures value { self.old ≡ Slot.Shard result.now }
    {
        match self {
            Slot::Book(_) => unreachable!(),
            Slot::Shard(shard) => shard,
            Slot::Token(_) => unreachable!(),
            Slot::Out => unreachable!(),
        }
    }
}
