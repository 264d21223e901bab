//! New labels for the elements of a range.

ghost use Rattle.std.specs.Prelude.{◌≡◌, ◌<◌, ◌≤◌, ◌+◌, ◌*◌, ◌/◌, ◌^◌, ℕ, length, slice_index, true, ◌≢◌, vec_capacity};
ghost use Rattle.om_relabel.specs.LabelledLinks.{AreLabelled, label_of};
ghost use Rattle.om_relabel.specs.Links.{first_of, label_after};
ghost use Rattle.om_relabel.specs.Ranges.{elements_of, most_in, spread_label};
ghost use Rattle.pipe_model.specs.Orders.OrderList.{has};

use crate::label_range::{LabelRange, width};
use crate::links::{LABEL_BITS, Links, TOP};

/// Returns the new label of element `k` of a sparse range, counted from 0 in the order of the list. The
/// labels rise by at least 2 each; all are in the range, and the last is at least 2 below its end.
pub fn spread(range: &LabelRange, k: u32) -> u64
    requires there { k < range.now.count }
    requires positive_bits { 1 ≤ range.now.bits }
    requires bounded_bits { range.now.bits ≤ LABEL_BITS }
    requires sparse { range.now.count ≤ most_in range.now.bits }
    requires top { range.now.low + 2 ^ range.now.bits ≤ TOP }
    ensures label { result ≡ spread_label range.now k }
    ensures low { range.now.low ≤ result }
    ensures end { result + 2 ≤ range.now.low + 2 ^ range.now.bits }
    ensures apart { (j : ℕ) → j < k → spread_label range.now j + 2 ≤ result }
{
    range.low + u64::from(k) * (width(range.bits) / u64::from(range.count))
}

/// Gives the elements of a sparse range new labels, evenly spread over the range, so that a label is free
/// after each. All other labels stay, and so do the links.
pub fn relabel(links: &mut Links, range: &LabelRange)
    requires labelled { AreLabelled links.old }
    requires first { range.now.first ≡ first_of (elements_of links.old range.now) }
    requires count { range.now.count ≡ length (elements_of links.old range.now) }
    requires positive_bits { 1 ≤ range.now.bits }
    requires bounded_bits { range.now.bits ≤ LABEL_BITS }
    requires sparse { range.now.count ≤ most_in range.now.bits }
    requires top { range.now.low + 2 ^ range.now.bits ≤ TOP }
    ensures next { links.new.next ≡ links.old.next }
    ensures prev { links.new.prev ≡ links.old.prev }
    ensures spread { (k : ℕ) → k < range.now.count → label_of links.new (slice_index (elements_of links.old range.now) k) ≡ spread_label
        range.now k }
    ensures others { (x : ℕ) → has x (elements_of links.old range.now) ≢ true → label_of links.new x ≡ label_of links.old x }
    ensures labelled { AreLabelled links.new }
    ensures free { (x : ℕ) → has x (elements_of links.old range.now) ≡ true → label_of links.new x + 2 ≤ label_after links.new.label.items
        (slice_index links.new.next.items x) }
    ensures capacity { vec_capacity links.new.label ≡ vec_capacity links.old.label }
    ensures long { length links.new.label.items ≡ length links.old.label.items }
{
    let mut element = range.first;
    for k in 0..range.count {
        links.label[element as usize] = spread(range, k);
        element = links.next[element as usize];
    }
}
