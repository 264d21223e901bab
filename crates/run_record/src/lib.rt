//! Run logs: the merge of the logs that a run writes, and the text of a run log, one line for each
//! event.
#![tactic(auto)]

mod cursors;
pub mod examples;
pub mod law;
pub mod log_text;
pub mod logged_run;
pub mod merge;
pub mod own_columns;
