//! The merge of the logs of a closed hall is a run.

ghost use Rattle.hall_laws.specs.HallRuns.{ClosedHallsAreRuns, EntriesAreOfInstances, EqualTicketsAreApart, FinishedBooksHaveNoTokenOut};
ghost use Rattle.hall_laws.specs.HallRuns.{LogsCanBeMerged, RaisedStopsClose};

/// If no token is out, the merge of the logs of a closed hall is a run of the book's program. Its
/// events other than accesses are those of the book, and its accesses to a cell are those in the log
/// of the cell's shard. It is finished if the book is, and ends with `Stop` if the book was stopped.
pub fn closed_halls_are_runs()
    ensures { ClosedHallsAreRuns }
{}

/// Each entry of the merge but `Stop` is of an instance (`instances`). Two entries of a closed hall
/// with one ticket are of different logs and of different instances (`apart`).
pub fn equal_tickets_are_apart()
    ensures instances { EntriesAreOfInstances }
    ensures apart { EqualTicketsAreApart }
{}

/// A stopped hall is closed once the ticket of `Stop` is raised above all tickets of the shards.
pub fn raised_stops_close()
    ensures { RaisedStopsClose }
{}

/// Tickets rise in the logs of a hall, as `merge` requires.
pub fn logs_can_be_merged()
    ensures { LogsCanBeMerged }
{}

/// No token of a finished book is out.
pub fn finished_books_have_no_token_out()
    ensures { FinishedBooksHaveNoTokenOut }
{}
