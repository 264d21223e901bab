//! Worked examples of the definitions, by computation.

ghost use Rattle.run_laws.specs.RunExamples.{WaitsForTheStageBefore, SkippingStagesAreParallel};
ghost use Rattle.run_laws.specs.RunExamples.{RedundantEdgeHasNoParent, WaitsUntilPassed, ListsOfWaitingColumns};
ghost use Rattle.run_laws.specs.RunExamples.{ParallelReadIsFound, OrderedReadIsNoRace, SerialEventsOfTwoIterations};

/// An instance that waits in a stage which the left column skips takes its edge from the last stage
/// before it, and from no other.
#[tactic(auto, using(crate::proofs::WorkedExamples::waits_for_the_stage_before))]
pub fn waits_for_the_stage_before()
    ensures { WaitsForTheStageBefore }
{}

/// The stages of the left column after the one that an instance waits for are parallel to it.
#[tactic(auto, using(crate::proofs::WorkedExamples::skipping_stages_are_parallel))]
pub fn skipping_stages_are_parallel()
    ensures { SkippingStagesAreParallel }
{}

/// An edge whose source already precedes the instance above makes no left parent.
#[tactic(auto, using(crate::proofs::WorkedExamples::redundant_edge_has_no_parent))]
pub fn redundant_edge_has_no_parent()
    ensures { RedundantEdgeHasNoParent }
{}

/// A stage that waits is not entered while the left neighbour runs the stage of that number; it is
/// once the neighbour has named a greater number.
#[tactic(auto, using(crate::proofs::WorkedExamples::waits_until_passed))]
pub fn waits_until_passed()
    ensures { WaitsUntilPassed }
{}

/// The down-first and the right-first list of two columns that each have the stages 0 and 1 and
/// wait in stage 1; the instances start head by head.
#[tactic(auto, using(crate::proofs::WorkedExamples::lists_of_waiting_columns))]
pub fn lists_of_waiting_columns()
    ensures { ListsOfWaitingColumns }
{}

/// The history of a cell finds a read that is parallel to an earlier write.
#[tactic(auto, using(crate::proofs::WorkedExamples::parallel_read_is_found))]
pub fn parallel_read_is_found()
    ensures { ParallelReadIsFound }
{}

/// The history of a cell finds nothing if the write precedes the read.
#[tactic(auto, using(crate::proofs::WorkedExamples::ordered_read_is_no_race))]
pub fn ordered_read_is_no_race()
    ensures { OrderedReadIsNoRace }
{}

/// The serial elision of a pipeline of two iterations, as a list of events.
#[tactic(auto, using(crate::proofs::WorkedExamples::serial_events_of_two_iterations))]
pub fn serial_events_of_two_iterations()
    ensures { SerialEventsOfTwoIterations }
{}
