//! Tests of the crates that read, check and print sources, and of the machine that runs stage
//! instances, over a memory that stops. Each row has its expected result, written by hand.
#![tactic(auto)]

#[cfg(test)]
mod bound_rows;
#[cfg(test)]
mod canonical_rows;
#[cfg(test)]
mod faults_found;
#[cfg(test)]
mod first_rows;
#[cfg(test)]
mod lexical_rows;
#[cfg(test)]
mod operator_rows;
#[cfg(test)]
mod rule_rows;
#[cfg(test)]
mod sources;
#[cfg(test)]
mod stopped_instances;
#[cfg(test)]
mod stopping_memory;
#[cfg(test)]
mod syntax_rows;
