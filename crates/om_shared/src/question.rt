//! One question, step by step.

ghost use Rattle.std.specs.Prelude.{◌≡◌, ◌≤◌, ◌↔◌, IsTrue, IfSome, length};
ghost use Rattle.pipe_model.specs.Orders.OrderList.{IsBeforeIn, list_of_log};
ghost use Rattle.om_shared.specs.Seats.{IsAsking};

use crate::rule::{CheckSequence, NoteLabel, NoteSequence};
use crate::table::{HEAD, OrderSeat, OrderWords, SEQUENCE};

/// Returns whether the label of `x` is below `y`'s, and `None` if labels were moving when the
/// sequence number was read, or have moved between the two times that it was read.
pub(crate) fn compare_labels(
    words: &OrderWords,
    seat: &mut OrderSeat,
    x: u32,
    y: u32,
) -> Option<bool>
    requires own { seat.old.table_id ≡ words.now.table_id }
    requires asking { IsAsking words.now.key words.now.table_id.words seat.old.me }
    requires first { x ≤ length seat.old.me.0.log }
    requires second { y ≤ length seat.old.me.0.log }
    ensures own { seat.new.table_id ≡ seat.old.table_id }
    ensures asking { IsAsking words.now.key words.now.table_id.words seat.new.me }
    ensures log { seat.new.me.0.log ≡ seat.old.me.0.log }
    ensures order { IfSome result (λ b. IsTrue b ↔ IsBeforeIn (list_of_log seat.old.me.0.log) x y) }
{
    let before = words.load::<NoteSequence>(seat, SEQUENCE);
    if before % 2 != 0 {
        return None;
    }
    let a = words.load::<NoteLabel>(seat, x as usize + HEAD);
    let b = words.load::<NoteLabel>(seat, y as usize + HEAD);
    let after = words.load::<CheckSequence>(seat, SEQUENCE);
    if after == before { Some(a < b) } else { None }
}
