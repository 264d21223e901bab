//! The rule of a hall, and the steps on its table.

use crate::carrier::Carrier;
use crate::opening::Opening;
use crate::slot::Slot;
use crate::view::View;
use atomic_table::{Join, Play, Split, Table, TableRule};
use std::alloc::Global;

/// The rule of a hall. Its key is what the hall was opened with.
pub struct HallRule;

impl<M: Carrier> TableRule<Slot<M>, View, Opening<M>> for HallRule {
    ghost use Rattle.hall_table.specs.HallRule.{IsHall, first_view};
    ghost use Rattle.hall_table.specs.Openings.{start_in};

    ghost holds = { λ opened. IsHall (start_in opened) };

    ghost first = { λ opened. first_view (start_in opened) };
}

/// A slot's value is taken.
pub struct TakesSlot;

impl<M: Carrier> Play<Slot<M>, View> for TakesSlot {
    ghost use Rattle.hall_table.specs.Steps.{takes_slot};

    ghost then = { takes_slot };
}

/// The book is given back.
pub struct ReturnsBook;

impl<M: Carrier> Play<Slot<M>, View> for ReturnsBook {
    ghost use Rattle.hall_table.specs.Steps.{returns_book};

    ghost then = { returns_book };
}

/// The book is given back beside a token that is given out.
pub struct ReturnsBookAndToken;

impl<M: Carrier> Play<Slot<M>, View> for ReturnsBookAndToken {
    ghost use Rattle.hall_table.specs.Steps.{returns_book_and_token};

    ghost then = { returns_book_and_token };
}

/// A shard is given back.
pub struct ReturnsShard;

impl<M: Carrier> Play<Slot<M>, View> for ReturnsShard {
    ghost use Rattle.hall_table.specs.Steps.{returns_shard};

    ghost then = { returns_shard };
}

/// A worker has seen what the seat that it has taken in had seen.
pub struct Meets;

impl<M: Carrier> Play<Slot<M>, View> for Meets {
    ghost use Rattle.hall_table.specs.Steps.{meets};

    ghost then = { meets };
}

/// The seat of an instance is split off.
pub struct SplitsInstance;

impl Split<View> for SplitsInstance {
    ghost use Rattle.hall_table.specs.HallRule.{view_of};
    ghost use Rattle.hall_table.specs.Steps.{without_run, run_seat};

    ghost left = { λ v. view_of (without_run v.it) };

    ghost right = { λ v. view_of (run_seat v.it) };
}

/// A seat for a further worker.
pub struct SplitsWorker;

impl Split<View> for SplitsWorker {
    ghost use Rattle.hall_table.specs.HallRule.{view_of};
    ghost use Rattle.hall_table.specs.Steps.{worker_seat};

    ghost left = { λ v. v };

    ghost right = { λ v. view_of (worker_seat v.it) };
}

/// The seat of an instance is taken in.
pub struct JoinsInstance;

impl Join<View> for JoinsInstance {
    ghost use Rattle.hall_table.specs.HallRule.{view_of};
    ghost use Rattle.hall_table.specs.SeatViews.{nothing_known};
    ghost use Rattle.hall_table.specs.Steps.{with_run};

    ghost both = { λ v w. view_of (with_run v.it w.it) };

    ghost spent = { view_of nothing_known };
}

/// The seat of another worker is taken in.
pub struct JoinsWorker;

impl Join<View> for JoinsWorker {
    ghost use Rattle.hall_table.specs.HallRule.{view_of};
    ghost use Rattle.hall_table.specs.SeatViews.{nothing_known};
    ghost use Rattle.hall_table.specs.Steps.{joined};

    ghost both = { λ v w. view_of (joined v.it w.it) };

    ghost spent = { view_of nothing_known };
}

/// The table of a hall.
pub type HallTable<M> = Table<Slot<M>, View, Opening<M>, HallRule, Global>;
