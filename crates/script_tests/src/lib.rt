//! Tests of the scheduler's book: scripts of calls with their results, worked out by hand.
#![tactic(auto)]

#[cfg(test)]
mod scripts;
