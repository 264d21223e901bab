//! The blank, comment or token with which bytes begin.

ghost use Rattle.std.specs.Prelude.{◌≡◌, ◌∷◌, ◌<◌, IfErr, IfOk, length, true, false};
ghost use Rattle.pipe_model.specs.Language.Lexis.{is_digit, is_letter};
ghost use Rattle.pipe_lexer.specs.Pieces.{BeginsPunctuation, IsFlaw, IsPiece, length_of, operator_length};

use crate::bytes::{
    begins_comment, digits, is_blank, is_digit, is_letter, is_sign, line_bytes, name_bytes,
};
use crate::number::number_value;
use crate::words::reserved_place;
use op_table::operators::OPS;
use pipe_model::bounds::LONGEST_NAME;
use pipe_model::token::TokenKind;

/// The blank, comment or token with which bytes begin, and its length in bytes.
#[derive(Clone, Copy)]
pub enum Piece {
    /// A blank or a comment.
    Gap(usize),
    /// A token.
    Taken(TokenKind, usize),
}

impl Piece {
    /// Returns its length in bytes.
    pub fn length(self) -> usize
        ensures { result ≡ length_of self }
    {
        match self {
            Piece::Gap(length) | Piece::Taken(_, length) => length,
        }
    }
}

/// What is wrong at the beginning of bytes.
#[derive(Clone, Copy)]
pub enum Flaw {
    /// Neither a blank nor a comment nor a token begins there.
    BadByte,
    /// A number above 9223372036854775807.
    TooWide,
    /// A name of more than 64 bytes.
    NameTooLong,
}

// Reads the word or name with which the bytes begin; their first is a letter.
fn word_or_name(bytes: &[u8], first: u8, following: &[u8]) -> Result<Piece, Flaw>
    requires front { bytes.now ≡ first ∷ following.now }
    requires letter { is_letter first ≡ true }
    ensures piece { IfOk result (λ piece. IsPiece bytes.now piece) }
    ensures flaw { IfErr result (λ flaw. IsFlaw bytes.now flaw) }
{
    let more = name_bytes(following);
    let text = &bytes[..1 + more];
    if let Some(place) = reserved_place(text) {
        return Ok(Piece::Taken(TokenKind::Word(place), 1 + more));
    }
    if LONGEST_NAME < text.len() {
        return Err(Flaw::NameTooLong);
    }
    Ok(Piece::Taken(TokenKind::Name, 1 + more))
}

// Reads the number with which the bytes begin; their first is a digit.
fn number(bytes: &[u8], first: u8, following: &[u8]) -> Result<Piece, Flaw>
    requires front { bytes.now ≡ first ∷ following.now }
    requires letter { is_letter first ≡ false }
    requires digit { is_digit first ≡ true }
    ensures piece { IfOk result (λ piece. IsPiece bytes.now piece) }
    ensures flaw { IfErr result (λ flaw. IsFlaw bytes.now flaw) }
{
    let more = digits(following);
    let Some(value) = number_value(&bytes[..1 + more]) else {
        return Err(Flaw::TooWide);
    };
    Ok(Piece::Taken(TokenKind::Number(value), 1 + more))
}

macro_rules! length_by_code {
    (($code:expr) $($row:literal $symbol:literal $length:literal $level:literal;)*) => {
        match $code {
            $($row => $length,)*
            _ => 0,
        }
    };
}

// The length in bytes of the operator with this code; 0 if no operator has the code.
fn operator_length(code: u8) -> usize
    ensures { result ≡ operator_length code }
{
    op_table::operators!(length_by_code, code)
}

// Reads the operator or sign with which the bytes begin. They begin with no blank, comment, word,
// name or number.
fn punctuation(bytes: &[u8], first: u8) -> Result<Piece, Flaw>
    requires { BeginsPunctuation first bytes.now }
    ensures piece { IfOk result (λ piece. IsPiece bytes.now piece) }
    ensures flaw { IfErr result (λ flaw. IsFlaw bytes.now flaw) }
{
    if let Some(code) = OPS.find(bytes) {
        return Ok(Piece::Taken(TokenKind::Operator(code), operator_length(code)));
    }
    if !is_sign(first) {
        return Err(Flaw::BadByte);
    }
    Ok(Piece::Taken(TokenKind::Sign(first), 1))
}

/// Returns the blank, comment or token with which `bytes` begins; there is at least one byte.
/// Returns an error if nothing within the bounds begins there.
pub fn piece_at(bytes: &[u8]) -> Result<Piece, Flaw>
    requires { 0 < length bytes.now }
    ensures piece { IfOk result (λ piece. IsPiece bytes.now piece) }
    ensures flaw { IfErr result (λ flaw. IsFlaw bytes.now flaw) }
{
    let first = bytes[0];
    let rest = &bytes[1..];
    if is_blank(first) {
        return Ok(Piece::Gap(1));
    }
    if begins_comment(bytes) {
        return Ok(Piece::Gap(line_bytes(bytes)));
    }
    if is_letter(first) {
        return word_or_name(bytes, first, rest);
    }
    if is_digit(first) {
        return number(bytes, first, rest);
    }
    punctuation(bytes, first)
}
