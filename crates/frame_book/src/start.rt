//! Starts of instances, in the order lists and for their payloads.

ghost use Rattle.std.specs.Prelude.{◌≡◌, ◌+◌, ◌-◌, ◌<◌, ◌≤◌, ◌≢◌, ◌^◌, ℕ, ℤ, List, zero, pos, [], length, IfSome, IfNone, IsSome, Some};
ghost use Rattle.std.specs.Prelude.{None, ◌⊎◌, slice_index_or};
ghost use Rattle.left_parent.specs.LastNumber.{IsLastUpTo};
ghost use Rattle.order_2d.specs.OrderPairs.{with_start, marks_after, down_taken, right_taken, HasRoom, AreInserted};
ghost use Rattle.frame_rows.specs.IterationRows.{row_at, head_marks, left_numbers, WaitsAt, IsSearchable, HasMarks, marks_at, left_marks};
ghost use Rattle.frame_rows.specs.Places.{HoldsRows};
ghost use Rattle.pipe_model.specs.Language.SyntaxTree.{SyntaxTree};
ghost use Rattle.pipe_frame.specs.Ties.{BelongsTo};
ghost use Rattle.frame_book.specs.CallEffects.{SameTieButLogs, identities_of_orders};

use crate::payload::Payload;
use frame_rows::places::Places;
use frame_rows::row::Iteration;
use left_parent::search::find;
use order_2d::list_writer::ListWriter;
use order_2d::two_orders::TwoOrders;
use pipe_model::marks::Marks;
use pipe_model::node::Kind;

/// Starts instance 0 of the next iteration, notifies its payload, and returns its marks.
pub fn start_head<M: Payload<L>, L: ListWriter + Drop>(
    rows: &[Iteration<M>],
    places: &Places,
    orders: &mut TwoOrders<L>,
    payload: &mut M,
) -> Marks
    requires holds { HoldsRows rows.now places.now }
    requires there { (r : _) → row_at rows.now (length rows.now - 1) ≡ Some r → 0 < length r.marks }
    requires inserted { AreInserted (length orders.old.down.log) None (head_marks rows.now) }
    requires room { HasRoom orders.old }
    requires belongs { BelongsTo (M.tie payload.old) (identities_of_orders orders.old) }
    ensures marks { result ≡ marks_after (length orders.old.down.log) (down_taken None (head_marks rows.now))
        (right_taken None (head_marks rows.now)) }
    ensures lists { orders.new ≡ with_start orders.old (down_taken None (head_marks rows.now)) (right_taken None (head_marks rows.now)) }
    ensures ready { (tree : SyntaxTree) (input : List ℤ) (i : ℕ) (replies : List (List ℤ)) → M.ready_at tree input payload.old i replies
        → M.ready_at tree input payload.new i replies }
    ensures tie { SameTieButLogs (M.tie payload.new) (M.tie payload.old) orders.new }
{
    let marks = insert_head(rows, places, orders);
    payload.started(orders);
    marks
}

// Inserts instance 0 of the next iteration into the order lists, and returns its marks.
fn insert_head<M, L: ListWriter + Drop>(
    rows: &[Iteration<M>],
    places: &Places,
    orders: &mut TwoOrders<L>,
) -> Marks
    requires holds { HoldsRows rows.now places.now }
    requires there { (r : _) → row_at rows.now (length rows.now - 1) ≡ Some r → 0 < length r.marks }
    requires inserted { AreInserted (length orders.old.down.log) None (head_marks rows.now) }
    requires room { HasRoom orders.old }
    ensures marks { result ≡ marks_after (length orders.old.down.log) (down_taken None (head_marks rows.now))
        (right_taken None (head_marks rows.now)) }
    ensures lists { orders.new ≡ with_start orders.old (down_taken None (head_marks rows.now)) (right_taken None (head_marks rows.now)) }
{
    if rows.is_empty() {
        return orders.start_first();
    }
    let last = rows.len() - 1;
    orders.start_node(None, Some(places.marks_at(last, 0)))
}

/// Returns the index of the left parent of an instance of this kind and number, if it has one;
/// `joined` is the last index of the left column that precedes the instance above it.
pub fn left_place<M>(
    rows: &[Iteration<M>],
    places: &Places,
    iteration: u32,
    kind: Kind,
    number: i64,
    joined: u32,
) -> Option<u32>
    requires holds { HoldsRows rows.now places.now }
    requires within { iteration < length rows.now }
    requires left { WaitsAt kind iteration → IsSearchable (left_numbers rows.now iteration) }
    ensures none { (WaitsAt kind iteration → ⊥) → result ≡ None }
    ensures some { WaitsAt kind iteration → IfSome result (λ j. (joined < j) × IsLastUpTo (left_numbers rows.now iteration) j number) }
    ensures nothing { WaitsAt kind iteration → IfNone result
        ((j : ℕ) → IsLastUpTo (left_numbers rows.now iteration) j number → j ≤ joined) }
{
    if iteration == 0 {
        return None;
    }
    match kind {
        Kind::Wait => {
            let place = iteration as usize - 1;
            let left = &rows[place];
            find(places.numbers(place, left.len()), number, joined)
        }
        Kind::Zero => None,
        Kind::Continue => None,
    }
}

/// Starts the instance below an instance, notifies its payload, and returns its marks; `left` is the
/// index of its left parent.
pub fn start_below<M: Payload<L>, L: ListWriter + Drop>(
    rows: &[Iteration<M>],
    places: &Places,
    orders: &mut TwoOrders<L>,
    payload: &mut M,
    iteration: u32,
    index: u32,
    left: Option<u32>,
) -> Marks
    requires holds { HoldsRows rows.now places.now }
    requires up { HasMarks rows.now iteration index }
    requires left { (j : ℕ) → left ≡ Some j → (0 < iteration) × HasMarks rows.now (iteration - 1) j }
    requires inserted { AreInserted (length orders.old.down.log) (Some (marks_at rows.now iteration index))
        (left_marks rows.now iteration left) }
    requires room { HasRoom orders.old }
    requires belongs { BelongsTo (M.tie payload.old) (identities_of_orders orders.old) }
    ensures marks { result ≡ marks_after (length orders.old.down.log)
        (down_taken (Some (marks_at rows.now iteration index)) (left_marks rows.now iteration left))
        (right_taken (Some (marks_at rows.now iteration index)) (left_marks rows.now iteration left)) }
    ensures lists { orders.new ≡ with_start orders.old
        (down_taken (Some (marks_at rows.now iteration index)) (left_marks rows.now iteration left))
        (right_taken (Some (marks_at rows.now iteration index)) (left_marks rows.now iteration left)) }
    ensures ready { (tree : SyntaxTree) (input : List ℤ) (i : ℕ) (replies : List (List ℤ)) → M.ready_at tree input payload.old i replies
        → M.ready_at tree input payload.new i replies }
    ensures tie { SameTieButLogs (M.tie payload.new) (M.tie payload.old) orders.new }
{
    let marks = insert_below(rows, places, orders, iteration, index, left);
    payload.started(orders);
    marks
}

// Inserts the instance below an instance into the order lists, and returns its marks.
fn insert_below<M, L: ListWriter + Drop>(
    rows: &[Iteration<M>],
    places: &Places,
    orders: &mut TwoOrders<L>,
    iteration: u32,
    index: u32,
    left: Option<u32>,
) -> Marks
    requires holds { HoldsRows rows.now places.now }
    requires up { HasMarks rows.now iteration index }
    requires left { (j : ℕ) → left ≡ Some j → (0 < iteration) × HasMarks rows.now (iteration - 1) j }
    requires inserted { AreInserted (length orders.old.down.log) (Some (marks_at rows.now iteration index))
        (left_marks rows.now iteration left) }
    requires room { HasRoom orders.old }
    ensures marks { result ≡ marks_after (length orders.old.down.log)
        (down_taken (Some (marks_at rows.now iteration index)) (left_marks rows.now iteration left))
        (right_taken (Some (marks_at rows.now iteration index)) (left_marks rows.now iteration left)) }
    ensures lists { orders.new ≡ with_start orders.old
        (down_taken (Some (marks_at rows.now iteration index)) (left_marks rows.now iteration left))
        (right_taken (Some (marks_at rows.now iteration index)) (left_marks rows.now iteration left)) }
{
    let up = places.marks_at(iteration as usize, index as usize);
    let left = match left {
        Some(parent) => Some(places.marks_at(iteration as usize - 1, parent as usize)),
        None => None,
    };
    orders.start_node(Some(up), left)
}
