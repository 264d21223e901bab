//! Worked examples of the lines of run logs, by computation.

ghost use Rattle.run_record.specs.LogExamples.{ClosedText, CountingText, OtherLines};

/// The text of a log of twelve events: a loop that counts to 1, waits, and emits the count.
#[tactic(auto, using(crate::proofs::LogTexts::counting_text))]
pub fn counting_text()
    ensures { CountingText }
{}

/// The text of the log of a loop that is closed at once.
#[tactic(auto, using(crate::proofs::LogTexts::closed_text))]
pub fn closed_text()
    ensures { ClosedText }
{}

/// The lines of accesses to the input, to an array and to the cell after it, of a stage that is not
/// waited for, of traps and of a stop.
#[tactic(auto, using(crate::proofs::LogTexts::other_lines))]
pub fn other_lines()
    ensures { OtherLines }
{}
