//! Halls of whole programs that have ended.

ghost use Rattle.hall_headline.specs.EndedPrograms.{HallEndsAreMerged, HallEndsReportTheirRaces, FinishedHallEndsMeetTheHeadline};

/// A hall that was opened after the accesses of `init` and has all its tokens back is a merged hall of
/// the whole program, so its run log records a run of the program, whether finished or stopped.
pub fn hall_ends_are_merged()
    ensures { HallEndsAreMerged }
{}

/// What its shards have found is in the columns of its run log, each cell once, as `gather` requires.
/// The reports that `gather` returns name the first races of the run, and are right.
pub fn hall_ends_report_their_races()
    ensures { HallEndsReportTheirRaces }
{}

/// If the book is finished and the program breaks no rule, these reports and the output and trap of
/// the run meet the headline.
pub fn finished_hall_ends_meet_the_headline()
    ensures { FinishedHallEndsMeetTheHeadline }
{}
