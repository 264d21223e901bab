//! A place for the seat of a running instance.

ghost use Rattle.std.specs.Prelude.{◌≡◌, Some, None};
ghost use Rattle.hall_table.specs.declared.run_seat.RunSeat.{RunSeat as Seat};

use crate::run_seat::RunSeat;
use crate::view::View;
use atomic_table::Badge;
use std::marker::Model;
use std::mem;

/// A place for the seat of a running instance. Contracts see the seat, if it is there. Nobody asks whether
/// it is: the place has no bytes, as the seat has none, so a payload that moves has no byte more with it.
#[derive(Drop)]
pub struct SeatPlace {
    badge: Badge<View>,
}

impl Model for SeatPlace {
    ghost use Rattle.std.specs.Coded.{coded_option};
    ghost use Rattle.std.specs.Prelude.{Option};
    ghost use Rattle.hall_table.specs.contracts.run_seat.RunSeat as run_seat;
    ghost use Rattle.hall_table.specs.declared.run_seat.RunSeat.{RunSeat as Seat};
    ghost use Rattle.hall_table.specs.SeatPlaces.{seat_of_badge};

    ghost Value = { Option Seat };

    ghost coded = { coded_option run_seat.the_row.coded };

    ghost view = { λ p. seat_of_badge p.badge };
}

impl SeatPlace {
    /// Returns a place without a seat.
    pub fn new() -> SeatPlace
        ensures { result ≡ None }
    {
        SeatPlace {
            badge: Badge::blank(),
        }
    }

    /// Takes out the seat, if there is one.
    pub fn take(&mut self) -> SeatPlace
        ensures seat { result ≡ self.old }
        ensures empty { self.new ≡ None }
    {
        mem::replace(self, SeatPlace::new())
    }

    /// Returns the seat, which must be there.
    pub fn into_seat(self) -> RunSeat
        requires there { (r : Seat) × (self ≡ Some r) }
        ensures { self ≡ Some result }
    {
        RunSeat { badge: self.badge }
    }

    /// Puts a seat there. One that was there is dropped.
    pub fn put(&mut self, run: RunSeat)
        ensures { self.new ≡ Some run }
    {
        let RunSeat { badge } = run;
        self.badge = badge;
    }
}
