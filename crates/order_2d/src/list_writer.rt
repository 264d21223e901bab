//! Lists into which elements are inserted.

ghost use Rattle.std.specs.Prelude.{◌≡◌, ◌<◌, ◌≤◌, ◌+◌, ◌++◌, ◌∷◌, [], IfOk, length};
ghost use Rattle.om_relabel.specs.declared.links.TheConstants.{MOST_ELEMENTS};
ghost use Rattle.om_shared.specs.SharedLists.{identity_of};
ghost use Rattle.order_2d.specs.OrderPairs.{OrderedList};

use om_list::om_list::OmList;
use om_shared::writer::OmWriter;
use pipe_model::memory::NoMemory;
use std::alloc::Global;

/// A list for order maintenance. Contracts see the log of its insertions, its capacity, and which
/// list it is, if it has an identity.
pub trait ListWriter {
    ghost use Rattle.order_2d.specs.OrderPairs.{OrderedList};

    /// What contracts see.
    ghost list: { Self → OrderedList };

    /// Inserts a new element right after `x`, and returns its number, which is the number of
    /// elements so far.
    fn insert_after(&mut self, x: u32) -> u32
        requires there { x ≤ length (list self.old).log }
        requires room { length (list self.old).log + 1 < (list self.old).capacity }
        ensures element { result ≡ 1 + length (list self.old).log }
        ensures list { list self.new ≡ record (list self.old) { log = (list self.old).log ++ x ∷ [] } };

    /// Inserts a new element right after `x` and another right after that one, as two calls of
    /// `insert_after` do, and returns the numbers of the two.
    fn insert_pair_after(&mut self, x: u32) -> (u32, u32)
        requires there { x ≤ length (list self.old).log }
        requires room { length (list self.old).log + 2 < (list self.old).capacity }
        ensures elements { result ≡ (1 + length (list self.old).log, 2 + length (list self.old).log) }
        ensures list { list self.new
            ≡ record (list self.old) { log = (list self.old).log ++ x ∷ (1 + length (list self.old).log) ∷ [] } };
}

/// A list that only its owner asks and changes, so it is made by itself, without passes.
pub trait OwnedList: ListWriter {
    /// Returns the list of element 0 alone, with room for `capacity` elements in all. No other call
    /// allocates. Returns an error only if memory runs out.
    fn with_capacity(alloc: Global, capacity: u32) -> Result<Self, NoMemory>
        requires positive { 0 < capacity }
        requires bounded { capacity ≤ MOST_ELEMENTS }
        ensures { IfOk result (λ l. Self.list l ≡ record { log = []; capacity = capacity; identity = [] }) };
}

impl ListWriter for OmList {
    ghost list = { λ l. record { log = l.log; capacity = l.capacity; identity = [] } };

    fn insert_after(&mut self, x: u32) -> u32 {
        OmList::insert_after(self, x)
    }

    fn insert_pair_after(&mut self, x: u32) -> (u32, u32) {
        let element = OmList::insert_after(self, x);
        (element, OmList::insert_after(self, element))
    }
}

impl OwnedList for OmList {
    fn with_capacity(alloc: Global, capacity: u32) -> Result<OmList, NoMemory> {
        Ok(OmList::new(alloc, capacity)?)
    }
}

impl ListWriter for OmWriter {
    ghost list = { λ l. record { log = l.log; capacity = l.capacity; identity = identity_of l.table } };

    fn insert_after(&mut self, x: u32) -> u32 {
        OmWriter::insert_after(self, x)
    }

    fn insert_pair_after(&mut self, x: u32) -> (u32, u32) {
        OmWriter::insert_pair_after(self, x)
    }
}
