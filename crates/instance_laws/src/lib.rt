//! Laws of machines that run stage instances over an empty memory.
//!
//! There is no code here: the public function has an empty body, and its contract is the law.
#![tactic(auto)]

pub mod ended;
