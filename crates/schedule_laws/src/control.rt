//! Laws of the control part of a run, and of the counters that right neighbours read.

ghost use Rattle.schedule_laws.specs.ControlLaws.{AccessesChangeNoOutline, ControlGoesByOutlines, ControlSkipsAccesses};
ghost use Rattle.schedule_laws.specs.ControlLaws.{CountersDecidePassing, CountersGrow, GreaterLimitsAllow, RunsHaveControlRuns};

/// States with the same instances and the same status in each iteration allow the same events of
/// the control part, and have the same columns. An access of a running instance does not change the
/// control part.
pub fn control_goes_by_outlines()
    ensures outlines { ControlGoesByOutlines }
    ensures accesses { AccessesChangeNoOutline }
{}

/// The control part of a log is the state after its events without the accesses, and that of a run
/// is a run of the control part.
#[tactic(auto, using(crate::proofs::ControlOutlines::control_skips_accesses, crate::proofs::ControlOutlines::runs_have_control_runs))]
pub fn runs_have_control_runs()
    ensures skips { ControlSkipsAccesses }
    ensures runs { RunsHaveControlRuns }
{}

/// A run of the control part is one for every greater limit.
#[tactic(auto, using(crate::proofs::ControlOutlines::greater_limits_allow))]
pub fn greater_limits_allow()
    ensures { GreaterLimitsAllow }
{}

/// An iteration has passed a number exactly if its counter is above it or says that the iteration
/// has ended, and stays past it.
#[tactic(auto, using(crate::proofs::ControlOutlines::counters_decide_passing, crate::proofs::ControlOutlines::counters_grow))]
pub fn counters_decide_passing()
    ensures decide { CountersDecidePassing }
    ensures grow { CountersGrow }
{}
