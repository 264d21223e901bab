//! The order lists of the book of a play. Nobody asks them: the races are found once the play has
//! ended, by lists of their own.

ghost use Rattle.std.specs.Prelude.{◌≡◌, []};

use order_2d::list_writer::ListWriter;
use pipe_frame::past::Past;
use std::marker::Model;

/// A list that nobody asks: only its elements are counted. Contracts see the log of the insertions and
/// the capacity. It has no identity.
#[derive(Drop)]
pub struct InsertionLog {
    // For each element but the first, the element after which it was inserted.
    log: Past<u32>,
    // How many there are.
    len: u32,
    capacity: u32,
}

impl Model for InsertionLog {
    ghost use Rattle.std.specs.Prelude.{◌≡◌, [], length};
    ghost use Rattle.order_2d.specs.OrderPairs.{OrderedList};

    ghost Value = { OrderedList };

    ghost view = { λ l. record { log = l.log; capacity = l.capacity; identity = [] } };

    ghost invariant = { λ l. l.len ≡ length l.log };
}

impl InsertionLog {
    /// Returns the list of element 0 alone, with room for `capacity` elements in all.
    pub fn new(capacity: u32) -> InsertionLog
        ensures { result ≡ record { log = []; capacity = capacity; identity = [] } }
    {
        InsertionLog {
            log: Past::new(),
            len: 0,
            capacity,
        }
    }
}

impl ListWriter for InsertionLog {
    ghost list = { λ l. l };

    fn insert_after(&mut self, x: u32) -> u32 {
        self.log.note(&x);
        self.len += 1;
        self.len
    }

    fn insert_pair_after(&mut self, x: u32) -> (u32, u32) {
        let element = self.insert_after(x);
        (element, self.insert_after(element))
    }
}
