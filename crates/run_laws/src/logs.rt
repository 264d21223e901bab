//! The law of logs: the merge of a book and its shards is a run.

ghost use Rattle.run_laws.specs.LogLaws.{MergedLogsAreARun};

/// The merge by tickets of the logs of a closed run, its book and its shards, is a run. It has the
/// columns of the book, and is finished if the book is.
pub fn merged_logs_are_a_run()
    ensures { MergedLogsAreARun }
{}
