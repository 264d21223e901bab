//! Laws of records: the answers exclude one another.

ghost use Rattle.record_check.specs.RecordLaws.{RecordsHaveOneAnswer, RunsAreNotRefused};

/// A list of events has at most one answer. So `NotAllowed` with an index is returned exactly if the
/// first events up to this index are a run and those with the next one are not; a kind of run, exactly
/// if all events are a run of this kind.
#[tactic(auto, using(crate::proofs::RecordAnswers::records_have_one_answer))]
pub fn records_have_one_answer()
    ensures { RecordsHaveOneAnswer }
{}

/// If all events are a run, none of them is refused.
#[tactic(auto, using(crate::proofs::RecordAnswers::runs_are_not_refused))]
pub fn runs_are_not_refused()
    ensures { RunsAreNotRefused }
{}
