//! Tests of the crates at the outside: inputs, command lines, generated workloads and open files.
//! Each row has its expected result, written by hand.
#![tactic(auto)]

#[cfg(test)]
mod command_rows;
#[cfg(test)]
mod input_rows;
#[cfg(test)]
mod open_file;
#[cfg(test)]
mod workload_rows;
