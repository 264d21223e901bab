//! A count of faults.

ghost use Rattle.std.specs.Prelude.{◌≡◌};
ghost use Rattle.pipe_io.specs.Faults.{CountsFault, next_count};
ghost use Rattle.std.specs.Prelude.{true};

use std::marker::Model;

/// The number of faults, at most 2^64 - 1.
#[derive(Clone, Copy)]
pub struct FaultCount {
    count: u64,
}

impl Model for FaultCount {
    ghost use Rattle.std.specs.Prelude.{ℕ};

    ghost Value = { ℕ };

    ghost view = { λ c. c.count };

    ghost inverse = { λ n. record { count = n } };
}

impl FaultCount {
    /// Creates a count of no faults.
    pub const fn new() -> Self
        ensures { result ≡ 0 }
    {
        FaultCount { count: 0 }
    }

    /// Returns the number of faults.
    pub fn get(self) -> u64
        ensures { result ≡ self }
    {
        self.count
    }

    /// Counts a fault. The count stays at its greatest value.
    pub fn rise(&mut self)
        ensures next { self.new ≡ next_count self.old }
        ensures cause { CountsFault true self.old self.new }
    {
        self.count = self.count.saturating_add(1);
    }
}
