//! Lists whose elements get their labels once somebody asks.

ghost use Rattle.std.specs.Prelude.{◌≡◌, ◌↔◌, ◌<◌, ◌≤◌, ◌+◌, ◌++◌, [], IfOk, IsTrue, length};
ghost use Rattle.om_relabel.specs.declared.links.TheConstants.{MOST_ELEMENTS};
ghost use Rattle.pipe_model.specs.Orders.OrderList.{IsBeforeIn, IsLog, list_of_log};

use crate::list_writer::{ListWriter, OwnedList};
use om_list::om_list::OmList;
use pipe_model::memory::NoMemory;
use std::alloc::Global;
use std::marker::Model;

/// A list whose new elements wait until a question is asked. So a run that asks nothing chooses no
/// labels. Contracts see the log of its insertions and the capacity. It has no identity.
#[derive(Drop)]
pub struct LateList {
    list: OmList,
    // The insertions that are not made yet, in order.
    pending: Vec<u32>,
}

impl Model for LateList {
    ghost use Rattle.std.specs.Prelude.{◌<◌, ◌≤◌, ◌++◌, [], length, vec_capacity};
    ghost use Rattle.om_relabel.specs.declared.links.TheConstants.{MOST_ELEMENTS};
    ghost use Rattle.pipe_model.specs.Orders.OrderList.{IsLog};
    ghost use Rattle.order_2d.specs.OrderPairs.{OrderedList};

    ghost Value = { OrderedList };

    ghost view = { λ l. record { log = l.list.log ++ l.pending.items; capacity = l.list.capacity; identity = [] } };

    ghost invariant = { λ l. IsLog 1 (l.list.log ++ l.pending.items) × (length (l.list.log ++ l.pending.items) < l.list.capacity)
        × (l.list.capacity ≤ vec_capacity l.pending) × (l.list.capacity ≤ MOST_ELEMENTS) };
}

// Makes the insertions in the list.
fn insert_all(list: &mut OmList, pending: &[u32])
    requires log { IsLog 1 (list.old.log ++ pending.now) }
    requires room { length (list.old.log ++ pending.now) < list.old.capacity }
    ensures log { list.new.log ≡ list.old.log ++ pending.now }
    ensures capacity { list.new.capacity ≡ list.old.capacity }
{
    for k in 0..pending.len() {
        list.insert_after(pending[k]);
    }
}

impl LateList {
    /// Returns the list of element 0 alone, with room for `capacity` elements in all. No other call
    /// allocates. Returns an error only if memory runs out.
    pub fn new(alloc: Global, capacity: u32) -> Result<LateList, NoMemory>
        requires positive { 0 < capacity }
        requires bounded { capacity ≤ MOST_ELEMENTS }
        ensures { IfOk result (λ l. l ≡ record { log = []; capacity = capacity; identity = [] }) }
    {
        let pending = Vec::with_capacity(alloc, capacity as usize)?;
        let list = OmList::new(alloc, capacity)?;
        Ok(LateList { list, pending })
    }

    // The number of elements.
    fn len(&self) -> u32
        ensures { result ≡ length self.now.log + 1 }
    {
        self.list.len() + self.pending.len() as u32
    }

    /// Returns whether `x` is strictly before `y` in the list. Takes constant time, but after insertions
    /// the time that `OmList` takes for them.
    pub fn before(&mut self, x: u32, y: u32) -> bool
        requires first { x ≤ length self.old.log }
        requires second { y ≤ length self.old.log }
        ensures order { IsTrue result ↔ IsBeforeIn (list_of_log self.old.log) x y }
        ensures unchanged { self.new ≡ self.old }
    {
        insert_all(&mut self.list, self.pending.as_slice());
        self.pending.clear();
        self.list.before(x, y)
    }
}

impl ListWriter for LateList {
    ghost list = { λ l. l };

    fn insert_after(&mut self, x: u32) -> u32 {
        let element = self.len();
        self.pending.push_reserved(x);
        element
    }

    fn insert_pair_after(&mut self, x: u32) -> (u32, u32) {
        let element = self.insert_after(x);
        (element, self.insert_after(element))
    }
}

impl OwnedList for LateList {
    fn with_capacity(alloc: Global, capacity: u32) -> Result<LateList, NoMemory> {
        LateList::new(alloc, capacity)
    }
}
