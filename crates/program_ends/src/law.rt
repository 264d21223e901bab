//! What a finished run of a program agrees with.

ghost use Rattle.program_ends.specs.ProgramEnds.{FinishedRunsAgreeWithElisions};

/// A finished run of an accepted program, with right reports, has a report exactly if the program's
/// serial elision has a race, and otherwise the elision's columns, output and trap.
pub fn finished_runs_agree_with_elisions()
    ensures { FinishedRunsAgreeWithElisions }
{}
