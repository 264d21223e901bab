//! What a seat that has seen the end of a run says of the whole run.

ghost use Rattle.pipe_engine.specs.SeenRuns.{SeenRunsAreOver};

/// If a seat has seen the end of a run, and the events of the book begin with what it has seen, then
/// the run of the book is finished or stopped.
pub fn runs_that_were_seen_over_are_over()
    ensures { SeenRunsAreOver }
{}
