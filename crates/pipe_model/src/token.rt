//! Tokens: the symbols of a source with their offsets.

use crate::list::ListOf;

/// What a token is.
#[derive(Clone, Copy, Debug)]
pub enum TokenKind {
    /// A name, which is not a reserved word; its bytes are in the source.
    Name,
    /// A reserved word, by its index in the list of reserved words, counted from 0.
    Word(u8),
    /// A number by its value.
    Number(i64),
    /// An operator by its code.
    Operator(u8),
    /// Any other sign by its byte.
    Sign(u8),
}

/// A token: what it is, its offset in the source, in bytes counted from 0, and its length in bytes.
#[derive(Clone, Copy)]
pub struct Token {
    pub kind: TokenKind,
    pub place: u32,
    pub length: u32,
}

/// The tokens of a source, in order.
pub type Tokens = ListOf<Token>;
