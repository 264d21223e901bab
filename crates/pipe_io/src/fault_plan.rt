//! Which calls are to fail.

ghost use Rattle.std.specs.Prelude.{◌≡◌};
ghost use Rattle.pipe_io.specs.Faults.{CountsFault};
ghost use Rattle.pipe_io.specs.FaultPlan.{first_plan, fails_next, after_call};

use crate::fault_count::FaultCount;
use std::marker::Model;

/// Which calls are to fail, by their numbers counted from 0, and how many calls and faults there
/// were so far.
#[derive(Drop)]
pub struct FaultPlan {
    fail_at: Vec<u32>,
    // Stays at 2^64 - 1, which `fail_at` cannot contain.
    calls: u64,
    faults: FaultCount,
}

impl Model for FaultPlan {
    ghost use Rattle.pipe_io.specs.FaultPlan.{Plan};

    ghost Value = { Plan };

    ghost view = { λ p. record { fail_at = p.fail_at.items; calls = p.calls; faults = p.faults } };
}

impl FaultPlan {
    /// Creates a plan before the first call.
    pub fn new(fail_at: Vec<u32>) -> Self
        ensures { result ≡ first_plan fail_at.items }
    {
        FaultPlan {
            fail_at,
            calls: 0,
            faults: FaultCount::new(),
        }
    }

    /// Counts a call, and returns whether it is to fail.
    pub fn next_fails(&mut self) -> bool
        ensures outcome { result ≡ fails_next self.old }
        ensures after { self.new ≡ after_call self.old }
        ensures cause { CountsFault result self.old.faults self.new.faults }
    {
        let fails = self.is_listed();
        self.calls = self.calls.saturating_add(1);
        if fails {
            self.faults.rise();
        }
        fails
    }

    // Whether `fail_at` contains the number of the next call.
    fn is_listed(&self) -> bool
        ensures { result ≡ fails_next self.now }
    {
        let number = self.calls;
        self.fail_at
            .iter()
            .any(|listed| u64::from(*listed) == number)
    }
}
