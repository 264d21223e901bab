//! Laws of the generated workload. There is no code here: each public function has an empty body,
//! and its contract is the law.
#![tactic(auto)]

pub mod inputs;
pub mod sources;
