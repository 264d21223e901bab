//! Insertions that are published first, and whose elements get their labels later, all at once.

ghost use Rattle.std.specs.Prelude.{◌≡◌, ◌≢◌, ◌+◌, ◌*◌, ◌%◌, ◌<◌, ◌≤◌, ◌++◌, ◌∷◌, [], ℕ, List, length, vec_capacity};
ghost use Rattle.pipe_model.specs.Orders.OrderList.{IsLog};
ghost use Rattle.om_list.specs.KeptLists.{IsKept};
ghost use Rattle.om_shared.specs.Seats.{HasLinkRoom, IsBetween, IsResting, IsStored, stage_of};
ghost use Rattle.om_shared.specs.SharedLists.{HasChosenLabels};
ghost use Rattle.om_shared.specs.declared.view.Stage.TheVariants.{Moving};

use crate::rule::{Announce, AnnouncePair, Settle, StartMoving, StoreLabel};
use crate::table::{HEAD, OrderSeat, OrderWords, SEQUENCE};
use om_list::insertion::insert_element;
use om_relabel::links::{Links, MOST_ELEMENTS};

// Makes the sequence number odd, unless insertions are pending: then it is. Returns it.
fn odd_sequence(
    words: &OrderWords,
    seat: &mut OrderSeat,
    links: &Links,
    pending: &[u32],
    sequence: u64,
) -> u64
    requires own { seat.old.table_id ≡ words.now.table_id }
    requires between { IsBetween (stage_of pending.now) words.now.key words.now.table_id.words sequence links.now pending.now
        seat.old.me }
    requires bounded { words.now.key ≤ MOST_ELEMENTS }
    ensures own { seat.new.table_id ≡ seat.old.table_id }
    ensures log { seat.new.me.0.log ≡ seat.old.me.0.log }
    ensures moving { IsBetween Moving words.now.key words.now.table_id.words result links.now pending.now seat.new.me }
{
    if !pending.is_empty() {
        return sequence;
    }
    words.store::<StartMoving>(seat, SEQUENCE, sequence + 1);
    sequence + 1
}

/// Publishes an insertion after `x`, which is pending from now on. Returns the new sequence number.
pub(crate) fn announce_after(
    words: &OrderWords,
    seat: &mut OrderSeat,
    links: &Links,
    pending: &mut Vec<u32>,
    sequence: u64,
    x: u32,
) -> u64
    requires own { seat.old.table_id ≡ words.now.table_id }
    requires between { IsBetween (stage_of pending.old.items) words.now.key words.now.table_id.words sequence links.now
        pending.old.items seat.old.me }
    requires there { x ≤ length seat.old.me.0.log }
    requires room { length seat.old.me.0.log + 1 < words.now.key }
    requires bounded { words.now.key ≤ MOST_ELEMENTS }
    requires pending_room { words.now.key ≤ vec_capacity pending.old }
    ensures own { seat.new.table_id ≡ seat.old.table_id }
    ensures log { seat.new.me.0.log ≡ seat.old.me.0.log ++ x ∷ [] }
    ensures pending { pending.new.items ≡ pending.old.items ++ x ∷ [] }
    ensures pending_room { vec_capacity pending.new ≡ vec_capacity pending.old }
    ensures moving { IsBetween Moving words.now.key words.now.table_id.words result links.now pending.new.items seat.new.me }
{
    let moving = odd_sequence(words, seat, links, pending.as_slice(), sequence);
    words.load::<Announce>(seat, x as usize + HEAD);
    pending.push_reserved(x);
    moving
}

/// Publishes an insertion after `x` and one after its element, in one step; both are pending from now on.
/// Returns the new sequence number.
pub(crate) fn announce_pair_after(
    words: &OrderWords,
    seat: &mut OrderSeat,
    links: &Links,
    pending: &mut Vec<u32>,
    sequence: u64,
    x: u32,
) -> u64
    requires own { seat.old.table_id ≡ words.now.table_id }
    requires between { IsBetween (stage_of pending.old.items) words.now.key words.now.table_id.words sequence links.now
        pending.old.items seat.old.me }
    requires there { x ≤ length seat.old.me.0.log }
    requires room { length seat.old.me.0.log + 2 < words.now.key }
    requires bounded { words.now.key ≤ MOST_ELEMENTS }
    requires pending_room { words.now.key ≤ vec_capacity pending.old }
    ensures own { seat.new.table_id ≡ seat.old.table_id }
    ensures log { seat.new.me.0.log ≡ seat.old.me.0.log ++ x ∷ (1 + length seat.old.me.0.log) ∷ [] }
    ensures pending { pending.new.items ≡ pending.old.items ++ x ∷ (1 + length seat.old.me.0.log) ∷ [] }
    ensures pending_room { vec_capacity pending.new ≡ vec_capacity pending.old }
    ensures moving { IsBetween Moving words.now.key words.now.table_id.words result links.now pending.new.items seat.new.me }
{
    let moving = odd_sequence(words, seat, links, pending.as_slice(), sequence);
    let element = links.label.len() as u32 + pending.len() as u32;
    words.load::<AnnouncePair>(seat, x as usize + HEAD);
    pending.push_reserved(x);
    pending.push_reserved(element);
    moving
}

// Inserts the pending elements into the links, one after the other.
fn insert_pending(links: &mut Links, pending: &[u32])
    requires kept { (done : List ℕ) × IsKept links.old done × IsLog 1 (done ++ pending.now) }
    requires bounded { length links.old.label.items + length pending.now ≤ MOST_ELEMENTS }
    requires next_room { length links.old.label.items + length pending.now ≤ vec_capacity links.old.next }
    requires prev_room { length links.old.label.items + length pending.now ≤ vec_capacity links.old.prev }
    requires label_room { length links.old.label.items + length pending.now ≤ vec_capacity links.old.label }
    ensures kept { (done : List ℕ) → IsKept links.old done → IsLog 1 (done ++ pending.now) → IsKept links.new (done ++ pending.now) }
    ensures chosen { (done : List ℕ) → IsKept links.old done → IsLog 1 (done ++ pending.now)
        → HasChosenLabels done links.old.label.items pending.now links.new.label.items }
    ensures next_room { vec_capacity links.new.next ≡ vec_capacity links.old.next }
    ensures prev_room { vec_capacity links.new.prev ≡ vec_capacity links.old.prev }
    ensures label_room { vec_capacity links.new.label ≡ vec_capacity links.old.label }
{
    for k in 0..pending.len() {
        insert_element(links, pending[k]);
    }
}

// Stores the label of each element, and makes the sequence number even.
fn store_labels(words: &OrderWords, seat: &mut OrderSeat, links: &Links, sequence: u64)
    requires own { seat.old.table_id ≡ words.now.table_id }
    requires stored { IsStored words.now.key words.now.table_id.words sequence links.now 0 seat.old.me }
    requires kept { IsKept links.now seat.old.me.0.log }
    requires below { length seat.old.me.0.log < words.now.key }
    requires odd { sequence % 2 ≡ 1 }
    requires bounded { sequence + 1 ≤ 2 * length seat.old.me.0.log }
    requires most { words.now.key ≤ MOST_ELEMENTS }
    ensures own { seat.new.table_id ≡ seat.old.table_id }
    ensures log { seat.new.me.0.log ≡ seat.old.me.0.log }
    ensures resting { IsResting words.now.key words.now.table_id.words (sequence + 1) links.now seat.new.me }
{
    for x in 0..links.label.len() {
        words.store::<StoreLabel>(seat, x + HEAD, links.label[x]);
    }
    words.store::<Settle>(seat, SEQUENCE, sequence + 1);
}

/// Gives the elements of the pending insertions their labels, so that none is pending any more. At
/// least one must be. Returns the new sequence number, which is even.
pub(crate) fn label_pending(
    words: &OrderWords,
    seat: &mut OrderSeat,
    links: &mut Links,
    pending: &mut Vec<u32>,
    sequence: u64,
) -> u64
    requires own { seat.old.table_id ≡ words.now.table_id }
    requires moving { IsBetween Moving words.now.key words.now.table_id.words sequence links.old pending.old.items seat.old.me }
    requires nonempty { pending.old.items ≢ [] }
    requires room { HasLinkRoom words.now.key (vec_capacity links.old.next) (vec_capacity links.old.prev)
        (vec_capacity links.old.label) (vec_capacity pending.old) }
    ensures own { seat.new.table_id ≡ seat.old.table_id }
    ensures log { seat.new.me.0.log ≡ seat.old.me.0.log }
    ensures resting { IsResting words.now.key words.now.table_id.words result links.new seat.new.me }
    ensures chosen { (done : List ℕ) → seat.old.me.0.log ≡ done ++ pending.old.items
        → HasChosenLabels done links.old.label.items pending.old.items links.new.label.items }
    ensures pending { pending.new.items ≡ [] }
    ensures room { HasLinkRoom words.now.key (vec_capacity links.new.next) (vec_capacity links.new.prev)
        (vec_capacity links.new.label) (vec_capacity pending.new) }
{
    insert_pending(links, pending.as_slice());
    pending.clear();
    store_labels(words, seat, links, sequence);
    sequence + 1
}
