//! The laws of the table of results.

ghost use Rattle.cilkp_program.specs.RowLaws.{CallsHaveOneRow, CallsHaveOneStatus};

/// States that for all commands but `run` and `wave` the words and the files of a call determine its status,
/// text, run log and reports.
pub fn calls_have_one_row()
    ensures { CallsHaveOneRow }
{}

/// States that the words and the files of a call determine its status, and its text unless the
/// status is 2 or the log is printed.
pub fn calls_have_one_status()
    ensures { CallsHaveOneStatus }
{}
