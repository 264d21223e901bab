//! Worked examples: the premises of the laws can be met.

ghost use Rattle.hall_laws.specs.HallExamples.{ExampleHallIsMerged, StoppedHallIsMerged};

/// A finished hall of two iterations that overlap, with equal tickets in different logs, and the run
/// to which its logs merge.
pub fn example_hall_is_merged()
    ensures { ExampleHallIsMerged }
{}

/// A hall that was stopped. Its second access was made after `Stop`, whose ticket was then raised.
pub fn stopped_hall_is_merged()
    ensures { StoppedHallIsMerged }
{}
