//! Closed halls of whole programs.

ghost use Rattle.hall_laws.specs.HallPrograms.{FinishedHallsMeetTheHeadline, MergedHallsAreProgramRuns, MergedHallsReportTheirRaces};

/// The run log that is merged from a closed hall is that of a run of the program, in which at most
/// the throttling limit of iterations are alive at any event. The run is finished if the book is, and
/// ends with `Stop` if the book was stopped.
pub fn merged_halls_are_program_runs()
    ensures { MergedHallsAreProgramRuns }
{}

/// What the histories of a closed hall have found is in the columns of its run log, and its reports
/// are those of the run's first races, and right for the run's own dag.
pub fn merged_halls_report_their_races()
    ensures { MergedHallsReportTheirRaces }
{}

/// A finished hall of a program that breaks no rule meets the headline, with right reports of its run
/// and the run's own output and trap.
pub fn finished_halls_meet_the_headline()
    ensures { FinishedHallsMeetTheHeadline }
{}
