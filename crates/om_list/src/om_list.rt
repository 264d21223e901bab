//! The list, kept as links and labels.

ghost use Rattle.std.specs.Prelude.{◌≡◌, ◌<◌, ◌≤◌, ◌+◌, ◌++◌, ◌∷◌, [], ◌↔◌, IfOk, IsTrue, length, slice_index};
ghost use Rattle.om_list.specs.ChosenLabels.{HasChosenLabel};
ghost use Rattle.om_list.specs.LabelledList.{HasRisingLabels};
ghost use Rattle.pipe_model.specs.Orders.OrderList.{IsBeforeIn, list_of_log};

use crate::insertion::insert_element;
use om_relabel::error::OutOfMemory;
use om_relabel::links::{END, Links, MOST_ELEMENTS};
use std::alloc::Global;
use std::marker::Model;

/// A list of elements, which are numbered from 0 in the order in which they were inserted. Contracts
/// see the log of the insertions, the capacity, and the label of each element.
#[derive(Drop)]
pub struct OmList {
    links: Links,
    // For each element but the first, the element after which it was inserted.
    log: Vec<u32>,
    capacity: u32,
}

impl Model for OmList {
    ghost use Rattle.std.specs.Prelude.{◌<◌, ◌≤◌, length, vec_capacity};
    ghost use Rattle.om_list.specs.LabelledList.{LabelledList};

    ghost Value = { LabelledList };

    ghost use Rattle.om_list.specs.KeptLists.{HasRoom, IsKept};

    ghost view = { λ l. record { log = l.log.items; capacity = l.capacity; labels = l.links.label.items } };

    ghost invariant = { λ l. IsKept l.links l.log.items
        × HasRoom l.capacity (length l.log.items) (vec_capacity l.links.next) (vec_capacity l.links.prev) (vec_capacity l.links.label)
        (vec_capacity l.log) };
}

impl OmList {
    /// Returns the list of element 0 alone, whose label is 0, with room for `capacity` elements in all.
    /// No other call allocates. Returns an error only if memory runs out.
    pub fn new(alloc: Global, capacity: u32) -> Result<OmList, OutOfMemory>
        requires positive { 0 < capacity }
        requires bounded { capacity ≤ MOST_ELEMENTS }
        ensures log { IfOk result (λ list. list.log ≡ []) }
        ensures capacity { IfOk result (λ list. list.capacity ≡ capacity) }
        ensures labels { IfOk result HasRisingLabels }
        ensures first { IfOk result (λ list. list.labels ≡ 0 ∷ []) }
    {
        let mut next = Vec::with_capacity(alloc, capacity as usize)?;
        let mut prev = Vec::with_capacity(alloc, capacity as usize)?;
        let mut label = Vec::with_capacity(alloc, capacity as usize)?;
        let log = Vec::with_capacity(alloc, capacity as usize)?;
        next.push_reserved(END);
        prev.push_reserved(END);
        label.push_reserved(0);
        Ok(OmList {
            links: Links { next, prev, label },
            log,
            capacity,
        })
    }

    /// Returns the number of elements.
    pub fn len(&self) -> u32
        ensures { result ≡ length self.now.log + 1 }
    {
        self.log.len() as u32 + 1
    }

    /// Returns the label of an element, below 2^62. Along the list the labels rise.
    pub fn label(&self, x: u32) -> u64
        requires there { x ≤ length self.now.log }
        ensures label { result ≡ slice_index self.now.labels x }
        ensures labels { HasRisingLabels self.now }
    {
        self.links.label[x as usize]
    }

    /// Returns whether `x` is strictly before `y` in the list. Constant time.
    pub fn before(&self, x: u32, y: u32) -> bool
        requires first { x ≤ length self.now.log }
        requires second { y ≤ length self.now.log }
        ensures { IsTrue result ↔ IsBeforeIn (list_of_log self.now.log) x y }
    {
        self.links.label[x as usize] < self.links.label[y as usize]
    }

    /// Inserts a new element right after `x`, and returns its number, which is the old length. Its
    /// label is in the middle between those of `x` and of the next element, rounded down; after the
    /// last element it is in the middle between that label and 2^62. Constant time, unless no label is
    /// free there: then the elements of the smallest sparse range of labels around `x` are spread
    /// evenly over it before, and all others keep their labels.
    pub fn insert_after(&mut self, x: u32) -> u32
        requires there { x ≤ length self.old.log }
        requires room { length self.old.log + 1 < self.old.capacity }
        ensures element { result ≡ length self.old.log + 1 }
        ensures log { self.new.log ≡ self.old.log ++ x ∷ [] }
        ensures capacity { self.new.capacity ≡ self.old.capacity }
        ensures labels { HasRisingLabels self.new }
        ensures label { HasChosenLabel (list_of_log self.old.log) self.old.labels x self.new.labels }
    {
        let element = self.len();
        insert_element(&mut self.links, x);
        self.log.push_reserved(x);
        element
    }
}
