//! Laws of runs: lists of events, each allowed after those before it.

ghost use Rattle.run_laws.specs.RunLaws.{RunsKeepRules, RunsFromTheFront, RunsNeverStick, RunsAreBounded};
ghost use Rattle.run_laws.specs.RunLaws.{IterationsBeginInTurn, FinishedStatesAreClosed};

/// In every run the iterations that have begun are those that have ended and those that are alive,
/// at most `limit` are alive, the stage numbers of an iteration rise, and each access is made by an
/// instance that was started.
#[tactic(auto, using(crate::proofs::RunStates::IterationCounts::runs_keep_rules))]
pub fn runs_keep_rules()
    ensures { RunsKeepRules }
{}

/// A run can also be defined from its first event: each event is allowed in the state after the
/// events before it, and the run leads to the state after all its events.
#[tactic(auto, using(crate::proofs::RunStates::FrontAndBack::runs_from_the_front))]
pub fn runs_from_the_front()
    ensures { RunsFromTheFront }
{}

/// A run of a well-formed pipeline, with a limit of at least 1, that is neither finished nor
/// stopped goes on: an event other than a stop is allowed.
#[tactic(auto, using(crate::proofs::RunStates::Progress::runs_never_stick))]
pub fn runs_never_stick()
    ensures { RunsNeverStick }
{}

/// In every run, also of the control part alone, the next iteration may begin exactly when fewer
/// than `limit` are alive, no iteration has closed the loop, and the iteration that began last has
/// ended its instance 0.
#[tactic(auto, using(crate::proofs::RunStates::LoopEnds::iterations_begin_in_turn))]
pub fn iterations_begin_in_turn()
    ensures { IterationsBeginInTurn }
{}

/// A state of a run is finished exactly when it was not stopped, an iteration has closed the loop,
/// and none is alive.
pub fn finished_states_are_closed()
    ensures { FinishedStatesAreClosed }
{}

/// The length of a run that was not stopped is bounded. If iteration i makes at most `more i`
/// further instances with at most `each` accesses each, it has at most
/// (`more i` + 1) * (`each` + 2) events, and no iteration follows the one that always closes the
/// loop.
pub fn runs_are_bounded()
    ensures { RunsAreBounded }
{}
