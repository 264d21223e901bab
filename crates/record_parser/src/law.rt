//! Laws of the reading of records.

ghost use Rattle.record_parser.specs.ReadingLaws.{LogsAreReadAsTheirEvents, LogsHaveNoBadLine, RecordsHaveNoBadLine, RecordsHaveOneReading};
ghost use Rattle.record_parser.specs.ReadingLaws.{TextsHaveOneBadLine};

/// If a record is the text of a run log, its events are the log's.
pub fn logs_are_read_as_their_events()
    ensures { LogsAreReadAsTheirEvents }
{}

/// The text of a run log has no bad line.
pub fn logs_have_no_bad_line()
    ensures { LogsHaveNoBadLine }
{}

/// A record of an accepted program has one list of events.
pub fn records_have_one_reading()
    ensures { RecordsHaveOneReading }
{}

/// A record has no bad line.
pub fn records_have_no_bad_line()
    ensures { RecordsHaveNoBadLine }
{}

/// A text has at most one first bad line.
pub fn texts_have_one_bad_line()
    ensures { TextsHaveOneBadLine }
{}
