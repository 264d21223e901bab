//! Tests of what is kept of a run: the history of accesses to a cell, and the lines of races; run logs,
//! their merge and their texts; and records, which are read and checked. Each row has its expected result,
//! written by hand.
#![tactic(auto)]

#[cfg(test)]
mod history_rows;
#[cfg(test)]
mod listed_orders;
#[cfg(test)]
mod merge_rows;
#[cfg(test)]
mod played_record_rows;
#[cfg(test)]
mod record_rows;
#[cfg(test)]
mod record_text_rows;
#[cfg(test)]
mod report_rows;
#[cfg(test)]
mod sources;
#[cfg(test)]
mod text_rows;
