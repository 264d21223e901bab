//! Laws of the grammar of the language: reading, spelling and printing.
//!
//! There is no code here. Each public function has an empty body, and its contract is a law about
//! the definitions of `pipe_model`. The lemmas and tools for the parser and the printer are here
//! too: a grammar that is read from the left, and machines that take one symbol at a time.
#![tactic(auto)]

pub mod spelling;
pub mod tokens;
