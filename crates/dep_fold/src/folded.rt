//! The kept counter.

ghost use Rattle.std.specs.Prelude.{◌≡◌, ◌↔◌, IsTrue, Some, None};
ghost use Rattle.dep_fold.specs.Folding.{FoldedPasses, folded_passes};

use pipe_model::stage::Counter;
use std::marker::Model;

/// The stage counter of the left neighbour as it was read last, if it was. Contracts see it as that.
/// Counters only grow, so whatever the kept one is past, the neighbour is past too.
#[derive(Drop)]
pub struct Folded {
    kept: Option<Counter>,
}

impl Model for Folded {
    ghost use Rattle.std.specs.Prelude.{Option};
    ghost use Rattle.pipe_model.specs.declared.stage.Counter.{Counter};

    ghost Value = { Option Counter };

    ghost view = { λ f. f.kept };
}

impl Folded {
    /// Returns a value that keeps no counter.
    pub fn new() -> Folded
        ensures { result ≡ None }
    {
        Folded { kept: None }
    }

    /// Returns whether a counter is kept that is past stage `number`: that of an iteration that has
    /// ended, or has named a greater stage number. Constant time.
    pub fn passes(&self, number: i64) -> bool
        ensures passes { IsTrue result ↔ FoldedPasses self.now number }
        ensures test { result ≡ folded_passes self.now number }
    {
        match self.kept {
            None => false,
            Some(Counter::At(named)) => named > number,
            Some(Counter::Ended) => true,
        }
    }

    /// Returns the counter that is kept.
    pub fn kept(&self) -> Option<Counter>
        ensures { result ≡ self.now }
    {
        self.kept
    }

    /// Keeps this counter, in place of the one that was kept.
    pub fn learn(&mut self, counter: Counter)
        ensures { self.new ≡ Some counter }
    {
        self.kept = Some(counter);
    }
}
