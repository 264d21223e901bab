//! Laws of the access history of a cell as a state.

ghost use Rattle.schedule_laws.specs.HistoryStateLaws.{HistoriesAreStates, SearchesNameDifferentAccesses};

/// The state of a history has found the first race of its accesses, and each further access is one
/// step.
#[tactic(auto, using(crate::proofs::HistoryFolds::histories_are_states))]
pub fn histories_are_states()
    ensures { HistoriesAreStates }
{}

/// The history and the explicit search find a race at the same access, and may name different
/// earlier ones: an example.
#[tactic(auto, using(crate::proofs::HistoryFolds::searches_name_different_accesses))]
pub fn searches_name_different_accesses()
    ensures { SearchesNameDifferentAccesses }
{}
