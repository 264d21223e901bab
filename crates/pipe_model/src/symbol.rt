//! Symbols: what the text of a program is divided into.

use crate::name::Name;

/// A terminal symbol of the grammar.
#[derive(Drop)]
pub enum Symbol {
    /// A name, which is not a reserved word.
    Name(Name),
    /// A reserved word, by its index in the list of reserved words, counted from 0.
    Word(u8),
    /// A number by its value.
    Number(i64),
    /// An operator by its code.
    Operator(u8),
    /// Any other sign by its byte.
    Sign(u8),
}
