//! Labels that rise along the list.

ghost use Rattle.std.specs.Prelude.{◌≡◌, ◌<◌, ◌≤◌, ◌+◌, length, slice_index, vec_capacity, IsTrue, ◌↔◌};
ghost use Rattle.om_relabel.specs.LabelledLinks.{AreLabelled, elements, label_of};
ghost use Rattle.om_relabel.specs.Links.{label_after};
ghost use Rattle.om_list.specs.ChosenLabels.{HasMadeRoom, IsRelabelled};

use om_relabel::label_range::choose_range;
use om_relabel::links::{END, Links, TOP};
use om_relabel::spreading::relabel;

/// Returns the label of the element after `x`, or `TOP` if `x` is the last.
pub fn next_label(links: &Links, x: u32) -> u64
    requires labelled { AreLabelled links.now }
    requires there { x < length links.now.label.items }
    ensures { result ≡ label_after links.now.label.items (slice_index links.now.next.items x) }
{
    let after = links.next[x as usize];
    if after == END {
        return TOP;
    }
    links.label[after as usize]
}

/// Returns whether a label between the labels of `x` and of the next element is free.
pub fn has_free_label(links: &Links, x: u32) -> bool
    requires labelled { AreLabelled links.now }
    requires there { x < length links.now.label.items }
    ensures { IsTrue result ↔ (label_of links.now x + 2 ≤ label_after links.now.label.items (slice_index links.now.next.items x)) }
{
    links.label[x as usize] + 2 <= next_label(links, x)
}

/// Spreads the elements of the smallest sparse range of labels around `x` evenly over the range, so that
/// a label is free after `x`. All other labels stay.
pub(crate) fn relabel_around(links: &mut Links, x: u32)
    requires labelled { AreLabelled links.old }
    requires there { x < length links.old.label.items }
    ensures relabelled { IsRelabelled (elements links.old) links.old.label.items x links.new.label.items }
    ensures labelled { AreLabelled links.new }
    ensures free { label_of links.new x + 2 ≤ label_after links.new.label.items (slice_index links.new.next.items x) }
    ensures next { links.new.next ≡ links.old.next }
    ensures prev { links.new.prev ≡ links.old.prev }
    ensures long { length links.new.label.items ≡ length links.old.label.items }
    ensures capacity { vec_capacity links.new.label ≡ vec_capacity links.old.label }
{
    let range = choose_range(links, x);
    relabel(links, &range);
}

/// Makes a label between the labels of `x` and of the next element free, if none is.
pub(crate) fn free_label_after(links: &mut Links, x: u32)
    requires labelled { AreLabelled links.old }
    requires there { x < length links.old.label.items }
    ensures labelled { AreLabelled links.new }
    ensures free { label_of links.new x + 2 ≤ label_after links.new.label.items (slice_index links.new.next.items x) }
    ensures room { HasMadeRoom (elements links.old) links.old.label.items x links.new.label.items }
    ensures next { links.new.next ≡ links.old.next }
    ensures prev { links.new.prev ≡ links.old.prev }
    ensures long { length links.new.label.items ≡ length links.old.label.items }
    ensures capacity { vec_capacity links.new.label ≡ vec_capacity links.old.label }
{
    if !has_free_label(links, x) {
        relabel_around(links, x);
    }
}
