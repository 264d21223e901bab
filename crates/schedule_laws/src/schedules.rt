//! Laws of the events that iterations may do next, and of schedules that choose among them.

ghost use Rattle.schedule_laws.specs.ScheduleLaws.{AllowedEventsAreNext, CandidatesAreAllowed, FinishedRunsHaveNoCandidate};
ghost use Rattle.schedule_laws.specs.ScheduleLaws.{PlayedRunsAreRuns, RunsHaveCandidates, SchedulesPlayRuns};

/// In every run of a well-formed pipeline that was not stopped, an event other than a stop is
/// allowed exactly if it is the next event of an iteration or the beginning of the next iteration.
pub fn allowed_events_are_next()
    ensures { AllowedEventsAreNext }
{}

/// Each candidate is allowed, and is not a stop.
#[tactic(auto, using(crate::proofs::Candidates::candidates_are_allowed))]
pub fn candidates_are_allowed()
    ensures { CandidatesAreAllowed }
{}

/// A run that is neither finished nor stopped has a candidate, if there is at least one worker and
/// the limit is at least 1.
pub fn runs_have_candidates()
    ensures { RunsHaveCandidates }
{}

/// Events that are candidates, one by one, are a run, and after each of them at most `workers`
/// instances run.
#[tactic(auto, using(crate::proofs::Candidates::played_runs_are_runs))]
pub fn played_runs_are_runs()
    ensures { PlayedRunsAreRuns }
{}

/// A run that was not stopped is finished exactly if it has no candidate.
pub fn finished_runs_have_no_candidate()
    ensures { FinishedRunsHaveNoCandidate }
{}

/// The events of a schedule are candidates, one by one; if turns are left the run is finished.
pub fn schedules_play_runs()
    ensures { SchedulesPlayRuns }
{}
