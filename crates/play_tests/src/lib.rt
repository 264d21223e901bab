//! Tests of schedules that are played: loops with their choices, and the lines of their logs, whole
//! programs with what they leave, and wave loops, which fill their grids; and of programs that are no wave
//! loops. Each row has its expected result, written by hand.
#![tactic(auto)]

#[cfg(test)]
mod grid_rows;
#[cfg(test)]
mod play_rows;
#[cfg(test)]
mod plays;
#[cfg(test)]
mod program_rows;
#[cfg(test)]
mod sources;
#[cfg(test)]
mod wave_fault_rows;
#[cfg(test)]
mod wave_sources;
