//! Laws of refusals. There is no code here: each public function has an empty body, and its contract
//! is the law.
#![tactic(auto)]

pub mod refusals;
