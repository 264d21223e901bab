//! Two shared lists, and passes to them.

ghost use Rattle.std.specs.Prelude.{◌≡◌, ◌<◌, ◌≤◌, [], IfOk};
ghost use Rattle.om_relabel.specs.declared.links.TheConstants.{MOST_ELEMENTS};
ghost use Rattle.order_2d.specs.OrderPairs.{HasRoom};
ghost use Rattle.order_2d.specs.SeenOrders.{AreOf};

use om_relabel::links::MOST_ELEMENTS;
use om_shared::writer::{OmWriter, start};
use order_2d::two_orders::TwoOrders;
use order_2d::two_passes::TwoPasses;
use pipe_model::memory::NoMemory;
use std::alloc::Global;

/// Returns two lists of element 0 alone, with room for `capacity` elements each, and passes to them.
/// Returns an error only if memory runs out.
pub fn shared_orders(
    alloc: Global,
    capacity: u32,
) -> Result<(TwoOrders<OmWriter>, TwoPasses), NoMemory>
    requires positive { 0 < capacity }
    requires bounded { capacity ≤ MOST_ELEMENTS }
    ensures logs { IfOk result (λ r. (r.0.down.log ≡ []) × (r.0.right.log ≡ []) × (r.1.down_log ≡ []) × (r.1.right_log ≡ [])) }
    ensures capacity { IfOk result (λ r. (r.0.down.capacity ≡ capacity) × (r.0.right.capacity ≡ capacity)) }
    ensures lists { IfOk result (λ r. (r.1.down ≡ r.0.down.identity) × (r.1.right ≡ r.0.right.identity)) }
{
    let (down, down_pass) = start(alloc, capacity)?;
    let (right, right_pass) = start(alloc, capacity)?;
    Ok((
        TwoOrders::new(down, right),
        TwoPasses::new(down_pass, right_pass),
    ))
}

#[cfg(test)]
mod tests {
    use super::*;
    use order_2d::two_passes::Asking;
    use pipe_model::marks::{Marks, Placeholder};
    use pipe_model::orders::Orders;
    use std::sync::Wait;

    const ZERO: Placeholder = Placeholder {
        down_first: 0,
        right_first: 0,
    };

    // An instance with element 0 in both lists.
    const FIRST: Marks = Marks {
        down_first: 0,
        right_first: 0,
        down: ZERO,
        right: ZERO,
    };

    // Whether the instance is before itself in one of the lists.
    fn is_before_itself<R: Wait>(rt: &R, passes: &mut TwoPasses) -> bool
        requires { (passes.old.down_log ≡ []) × (passes.old.right_log ≡ []) }
    {
        let mut asking = Asking { rt, passes };
        asking.down_before(&FIRST, &FIRST) || asking.right_before(&FIRST, &FIRST)
    }

    // Defers both lists, starts an instance, and settles them. Returns whether they were settled before
    // that, and whether they are.
    fn settled(orders: &mut TwoOrders<OmWriter>, passes: &TwoPasses) -> (bool, bool)
        requires { HasRoom orders.old }
    {
        orders.defer();
        orders.start_first();
        let before = passes.are_settled();
        orders.settle();
        (before, passes.are_settled())
    }

    // Whether the passes of two lists find an instance before itself, and whether the lists were settled
    // before they are, and after that.
    fn asked_and_settled<R: Wait>(rt: &R, alloc: Global) -> Result<(bool, (bool, bool)), NoMemory> {
        let (mut orders, mut passes) = shared_orders(alloc, 8)?;
        let before = is_before_itself(rt, &mut passes);
        let settled = settled(&mut orders, &passes);
        drop(passes);
        drop(orders);
        Ok((before, settled))
    }

    // Both lists are asked, and then deferred and settled.
    #[test]
    fn two_lists_are_asked_and_settled(rt: HostRuntime) {
        let found = asked_and_settled(&rt, rt.alloc());
        assert!(rt; found == Ok((false, (false, true))), "{found:?}");
    }

    // Shows later passes an instance, and has the early ones meet them.
    fn meet(orders: &mut TwoOrders<OmWriter>, early: &mut TwoPasses) -> Result<(), NoMemory>
        requires room { HasRoom orders.old }
        requires early { AreOf early.old orders.old }
    {
        let mut late = early.split()?;
        orders.start_first();
        orders.confirm(&mut late);
        early.meet(&mut late);
        drop(late);
        Ok(())
    }

    fn met(alloc: Global) -> Result<(), NoMemory> {
        let (mut orders, mut early) = shared_orders(alloc, 8)?;
        let met = meet(&mut orders, &mut early);
        drop(early);
        drop(orders);
        met
    }

    #[test]
    fn passes_of_two_lists_meet(rt: HostRuntime) {
        assert!(rt; met(rt.alloc()) == Ok(()));
    }
}
