//! The rules that a program obeys besides its grammar: limits are in their ranges, and names are
//! declared once, before they are used, and used as what they are.
#![tactic(auto)]

mod cell_table;
pub mod checked;
mod expression;
pub mod fault;
pub mod law;
mod limits;
pub mod program;
mod scope;
mod statement;
