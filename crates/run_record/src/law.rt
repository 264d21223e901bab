//! Laws of run logs: of their columns and traps, and of the merge.

ghost use Rattle.run_record.specs.OwnColumns.{RunsMakeTheirColumns};
ghost use Rattle.run_record.specs.SortedEntries.{MergesAreSorted};
ghost use Rattle.run_record.specs.TrappedEvents.{BooksWithoutTrapsMakeNone};

/// The columns that the events of a run make are those of the run's state, with the same ends. So
/// if the events of a merge are a run, its columns are the run's own.
#[tactic(auto, using(crate::proofs::RunColumns::runs_make_their_columns))]
pub fn runs_make_their_columns()
    ensures { RunsMakeTheirColumns }
{}

/// If tickets rise in the book and in each shard, the events of their merge are those of all entries,
/// sorted by ticket; and no others.
pub fn merges_are_sorted()
    ensures { MergesAreSorted }
{}

/// If no event of a book ends an iteration with a trap, no column that the events make ends with one.
pub fn books_without_traps_make_none()
    ensures { BooksWithoutTrapsMakeNone }
{}
