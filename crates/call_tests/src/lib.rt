//! Tests of the top call, over files and sinks in memory, and of the real files and the real sink.
#![tactic(auto)]

#[cfg(test)]
mod call_rows;
#[cfg(test)]
mod cases;
#[cfg(test)]
mod event_rows;
#[cfg(test)]
mod language_rows;
#[cfg(test)]
mod play_rows;
#[cfg(test)]
mod race_rows;
#[cfg(test)]
mod record_rows;
#[cfg(test)]
mod refusal_tests;
#[cfg(test)]
mod row_tests;
#[cfg(test)]
mod span_rows;
#[cfg(test)]
mod tests;
#[cfg(test)]
mod thread_rows;
