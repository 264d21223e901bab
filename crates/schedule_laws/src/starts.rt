//! The law of the starts of a run.

ghost use Rattle.schedule_laws.specs.StartCounts.{StartsAreCounted};

/// A run starts each instance of its columns once.
#[tactic(auto, using(crate::proofs::CountedStarts::starts_are_counted))]
pub fn starts_are_counted()
    ensures { StartsAreCounted }
{}
