//! What holds of each deque at every moment, and what a call on an end changes.

use crate::tally::{Tally, TaskTest};
use crossbeam_deque::protocol::{Join, Lesson, Outcome, Protocol, Split};
use std::marker::PhantomData;

// Each task meets the test, and what was put in is what was taken out and what is there.
pub struct Tested<Q> {
    of: PhantomData<Q>,
}

impl<T, Q: TaskTest<T>> Protocol<T, Tally> for Tested<Q> {
    ghost use Rattle.std.specs.Prelude.{[]};
    ghost use Rattle.work_deques.specs.Tallies.{ALL_PARTS, IsBalanced, tally};

    ghost holds = { λ items tallies. IsBalanced Q.meets Q.tag items tallies };

    ghost first = { tally ALL_PARTS [] [] };

    ghost guest = { tally 0 [] [] };
}

// The tally after a push.
pub struct Put<Q> {
    of: PhantomData<Q>,
}

impl<T, Q: TaskTest<T>> Outcome<T, Tally> for Put<Q> {
    ghost use Rattle.std.specs.Prelude.{◌≡◌, map};
    ghost use Rattle.work_deques.specs.Tallies.{with_put};

    ghost then = { λ v xs w. w ≡ with_put v (map Q.tag xs) };
}

// The tally after a pop or a steal, whose task meets the test.
pub struct Got<Q> {
    of: PhantomData<Q>,
}

impl<T, Q: TaskTest<T>> Outcome<T, Tally> for Got<Q> {
    ghost use Rattle.std.specs.Prelude.{◌≡◌, All, map};
    ghost use Rattle.work_deques.specs.Tallies.{with_taken};

    ghost then = { λ v xs w. All Q.meets xs × (w ≡ with_taken v (map Q.tag xs)) };
}

// A new end gets one part. When two ends are joined, their tallies are added up.
pub struct OnePart;

impl Split<Tally> for OnePart {
    ghost use Rattle.std.specs.Prelude.{◌-◌, []};
    ghost use Rattle.work_deques.specs.Tallies.{tally};

    ghost left = { λ v. tally (v.parts - 1) v.put v.taken };

    ghost right = { λ v. tally 1 [] [] };
}

impl Join<Tally> for OnePart {
    ghost use Rattle.std.specs.Prelude.{[]};
    ghost use Rattle.work_deques.specs.Tallies.{joined, tally};

    ghost both = { joined };

    ghost spent = { tally 0 [] [] };
}

// What an end with all parts knows: its tally is the whole account.
pub struct Total<Q> {
    of: PhantomData<Q>,
}

impl<T, Q: TaskTest<T>> Lesson<T, Tally> for Total<Q> {
    ghost use Rattle.std.specs.Prelude.{map};
    ghost use Rattle.work_deques.specs.Tallies.{IsEven};

    ghost fact = { λ v items. IsEven v (map Q.tag items) };
}
