//! Accesses that are noted by two passes, while the lists may grow.

ghost use Rattle.access_history.specs.KeptInstances.{KeptAreIn};
ghost use Rattle.order_2d.specs.SeenOrders.{AreSameLists};
ghost use Rattle.pipe_model.specs.Orders.GrowingLists.{AreIn, KeepsOrder};
ghost use Rattle.pipe_model.specs.Orders.OrderList.{list_of_log};
ghost use Rattle.std.specs.Prelude.{◌≡◌};

use access_history::history::{History, MarkedNode, Verdict};
use order_2d::two_passes::{Asking, TwoPasses};
use pipe_model::access::AccessKind;
use std::sync::Wait;

/// Notes an access. The passes have seen the elements of the kept instances and of the new one.
#[tactic(auto, using(order_2d::proofs::QuestionIdentities::same_lists))]
pub fn note_with<R: Wait>(
    rt: &R,
    history: &mut History,
    passes: &mut TwoPasses,
    who: MarkedNode,
    kind: AccessKind,
) -> Verdict
    requires kept { KeptAreIn (list_of_log passes.old.down_log) (list_of_log passes.old.right_log) history.old }
    requires new { AreIn (list_of_log passes.old.down_log) (list_of_log passes.old.right_log) who.marks }
    ensures in_lists { KeptAreIn (list_of_log passes.new.down_log) (list_of_log passes.new.right_log) history.new }
    ensures down { KeepsOrder (list_of_log passes.old.down_log) (list_of_log passes.new.down_log) }
    ensures right { KeepsOrder (list_of_log passes.old.right_log) (list_of_log passes.new.right_log) }
    ensures lists { AreSameLists passes.new passes.old }
{
    history.note(who, kind, &mut Asking { rt, passes })
}

/// Notes an access of an instance whose own passes have seen its elements.
pub fn note_met<R: Wait>(
    rt: &R,
    history: &mut History,
    passes: &mut TwoPasses,
    own: &mut TwoPasses,
    who: MarkedNode,
    kind: AccessKind,
) -> Verdict
    requires same_lists { AreSameLists passes.old own.old }
    requires kept { KeptAreIn (list_of_log passes.old.down_log) (list_of_log passes.old.right_log) history.old }
    requires new { AreIn (list_of_log own.old.down_log) (list_of_log own.old.right_log) who.marks }
    ensures in_lists { KeptAreIn (list_of_log passes.new.down_log) (list_of_log passes.new.right_log) history.new }
    ensures lists { AreSameLists passes.new passes.old }
    ensures own { own.new ≡ own.old }
{
    passes.meet(own);
    note_with(rt, history, passes, who, kind)
}
