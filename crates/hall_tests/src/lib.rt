//! Tests of the hall: accesses, calls through two seats, and whole runs on several threads, whose logs a
//! plain checker goes through event by event.
#![tactic(auto)]

#[cfg(test)]
mod access_rows;
#[cfg(test)]
mod call_rows;
#[cfg(test)]
mod checker;
#[cfg(test)]
mod checker_rows;
#[cfg(test)]
mod closing;
#[cfg(test)]
mod counting;
#[cfg(test)]
mod deque_rows;
#[cfg(test)]
mod hold_rows;
#[cfg(test)]
mod opening;
#[cfg(test)]
mod run_rows;
#[cfg(test)]
mod sources;
#[cfg(test)]
mod threads;
#[cfg(test)]
mod worker;
#[cfg(test)]
mod worker_rows;
