//! Insertions into links and labels.

ghost use Rattle.std.specs.Prelude.{◌≡◌, ◌≢◌, ◌<◌, ◌+◌, ◌++◌, ◌∷◌, [], length, slice_index, vec_capacity, vec_len};
ghost use Rattle.om_relabel.specs.LabelledLinks.{AreLabelled, elements, label_of};
ghost use Rattle.om_relabel.specs.Links.{label_after};
ghost use Rattle.om_list.specs.ChosenLabels.{HasChosenLabel};
ghost use Rattle.om_list.specs.KeptLists.{links_back, links_with};
ghost use Rattle.pipe_model.specs.Orders.OrderList.{insert_after};

use crate::labels::{free_label_after, next_label};
use om_relabel::links::{END, Links, MOST_ELEMENTS};

// Links a new element after `x`; its number is the number of links so far. Returns the element that was after `x`.
fn link_after(next: &mut Vec<u32>, x: u32) -> u32
    requires there { x < length next.old.items }
    requires bounded { length next.old.items < END }
    requires reserved { vec_len next.old < vec_capacity next.old }
    ensures after { result ≡ slice_index next.old.items x }
    ensures links { next.new.items ≡ links_with next.old.items x }
    ensures capacity { vec_capacity next.new ≡ vec_capacity next.old }
{
    let element = next.len() as u32;
    let after = next[x as usize];
    next[x as usize] = element;
    next.push_reserved(after);
    after
}

// Links a new element back to `x`, and the element `after`, if it is one, back to the new one.
fn link_back(prev: &mut Vec<u32>, x: u32, after: u32)
    requires there { after ≢ END → after < length prev.old.items }
    requires bounded { length prev.old.items < END }
    requires reserved { vec_len prev.old < vec_capacity prev.old }
    ensures links { prev.new.items ≡ links_back prev.old.items x after }
    ensures capacity { vec_capacity prev.new ≡ vec_capacity prev.old }
{
    if after != END {
        prev[after as usize] = prev.len() as u32;
    }
    prev.push_reserved(x);
}

/// Inserts a new element with a given label after `x`.
pub fn insert_labelled(links: &mut Links, x: u32, label: u64)
    requires labelled { AreLabelled links.old }
    requires there { x < length links.old.label.items }
    requires above { label_of links.old x < label }
    requires below { label < label_after links.old.label.items (slice_index links.old.next.items x) }
    requires bounded { length links.old.label.items < MOST_ELEMENTS }
    requires next_room { vec_len links.old.next < vec_capacity links.old.next }
    requires prev_room { vec_len links.old.prev < vec_capacity links.old.prev }
    requires label_room { vec_len links.old.label < vec_capacity links.old.label }
    ensures labelled { AreLabelled links.new }
    ensures list { elements links.new ≡ insert_after x (length links.old.label.items) (elements links.old) }
    ensures labels { links.new.label.items ≡ links.old.label.items ++ label ∷ [] }
    ensures long { length links.new.label.items ≡ length links.old.label.items + 1 }
    ensures next_room { vec_capacity links.new.next ≡ vec_capacity links.old.next }
    ensures prev_room { vec_capacity links.new.prev ≡ vec_capacity links.old.prev }
    ensures label_room { vec_capacity links.new.label ≡ vec_capacity links.old.label }
{
    let after = link_after(&mut links.next, x);
    link_back(&mut links.prev, x, after);
    links.label.push_reserved(label);
}

/// Inserts a new element after `x`. If no label is free there, the smallest sparse range of labels
/// around `x` is labelled anew before.
pub fn insert_element(links: &mut Links, x: u32)
    requires labelled { AreLabelled links.old }
    requires there { x < length links.old.label.items }
    requires bounded { length links.old.label.items < MOST_ELEMENTS }
    requires next_room { vec_len links.old.next < vec_capacity links.old.next }
    requires prev_room { vec_len links.old.prev < vec_capacity links.old.prev }
    requires label_room { vec_len links.old.label < vec_capacity links.old.label }
    ensures labelled { AreLabelled links.new }
    ensures list { elements links.new ≡ insert_after x (length links.old.label.items) (elements links.old) }
    ensures label { HasChosenLabel (elements links.old) links.old.label.items x links.new.label.items }
    ensures long { length links.new.label.items ≡ length links.old.label.items + 1 }
    ensures next_room { vec_capacity links.new.next ≡ vec_capacity links.old.next }
    ensures prev_room { vec_capacity links.new.prev ≡ vec_capacity links.old.prev }
    ensures label_room { vec_capacity links.new.label ≡ vec_capacity links.old.label }
{
    free_label_after(links, x);
    let low = links.label[x as usize];
    let high = next_label(links, x);
    insert_labelled(links, x, low + (high - low) / 2);
}
