//! The law of books for programs. There is no code here: the function has an empty body, and its
//! contract is the law.
#![tactic(auto)]

pub mod books;
