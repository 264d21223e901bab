//! The merge of the logs of a hall that has ended is a run.

ghost use Rattle.hall_headline.specs.HallEnds.{HallEndsAccessTheirCells, HallEndsAreClosed, HallEndsAreRuns, HallEndsHaveCellsOfRuns};
ghost use Rattle.hall_headline.specs.HallEnds.{LogsOfHallEndsCanBeMerged};

/// A hall that has ended is a closed hall.
pub fn hall_ends_are_closed()
    ensures { HallEndsAreClosed }
{}

/// Tickets rise in the logs of its book and of its shards, as `merge` requires.
pub fn logs_of_hall_ends_can_be_merged()
    ensures { LogsOfHallEndsCanBeMerged }
{}

/// If no token is out, the merge of the logs is a run of the book's program. It is finished if the
/// book is, and ends with `Stop` if the book was stopped.
pub fn hall_ends_are_runs()
    ensures { HallEndsAreRuns }
{}

/// Each access of the merge is to one of the program's cells.
pub fn hall_ends_access_their_cells()
    ensures { HallEndsAccessTheirCells }
{}

/// The cells of each shard are its cells after the accesses of the run, which may be to cells of all
/// shards.
pub fn hall_ends_have_cells_of_runs()
    ensures { HallEndsHaveCellsOfRuns }
{}
