//! The tokens of a whole source.

ghost use Rattle.std.specs.Prelude.{◌≡◌, ◌≤◌, ◌++◌, IfErr, IfOk, OnOk};
ghost use Rattle.pipe_model.specs.declared.bounds.TheConstants as bounds;
ghost use Rattle.pipe_model.specs.Language.Tokens.{IsLexed};
ghost use Rattle.pipe_lexer.specs.Pieces.{length_of, tokens_of};
ghost use Rattle.pipe_lexer.specs.Faults.{fault_at, IsFaultOf};

use crate::fault::LexFault;
use crate::piece::{Flaw, Piece, piece_at};
use pipe_model::bounds::LONGEST_SOURCE;
use pipe_model::token::{Token, Tokens};
use std::alloc::{AllocError, Global};

impl Flaw {
    // The fault of this flaw at an offset.
    fn at(self, place: u32) -> LexFault
        ensures { result ≡ fault_at self place }
    {
        match self {
            Flaw::BadByte => LexFault::BadByte(place),
            Flaw::TooWide => LexFault::TooWide(place),
            Flaw::NameTooLong => LexFault::NameTooLong(place),
        }
    }
}

// Appends the piece to the tokens found so far, if it is a token; `place` is its offset.
fn keep(found: &mut Tokens, piece: Piece, place: u32) -> Result<(), AllocError>
    requires { length_of piece ≤ bounds.LONGEST_SOURCE }
    ensures kept { OnOk result (found.new ≡ found.old ++ tokens_of piece place) }
{
    if let Piece::Taken(kind, length) = piece {
        found.push(Token {
            kind,
            place,
            length: length as u32,
        })?;
    }
    Ok(())
}

/// Returns the tokens of a source, each with its kind, offset and length. `SourceTooLong` is
/// returned exactly when the source has more than 1,048,576 bytes. Otherwise `BadByte`, `TooWide`
/// and `NameTooLong` report the first fault in the text, with its offset: a byte at which neither a
/// blank nor a comment nor a token begins, a number above 9223372036854775807, or a name of more
/// than 64 bytes. `NoMemory` is returned if memory runs out, whatever the source.
pub fn tokens(alloc: Global, source: &[u8]) -> Result<Tokens, LexFault>
    ensures tokens { IfOk result (λ found. IsLexed source.now found) }
    ensures fault { IfErr result (λ fault. IsFaultOf source.now fault) }
{
    if LONGEST_SOURCE < source.len() {
        return Err(LexFault::SourceTooLong);
    }
    let mut found = Tokens::with_capacity(alloc, source.len() / 4)?;
    let mut rest = source;
    while !rest.is_empty() {
        let place = (source.len() - rest.len()) as u32;
        let piece = match piece_at(rest) {
            Ok(piece) => piece,
            Err(flaw) => return Err(flaw.at(place)),
        };
        keep(&mut found, piece, place)?;
        rest = &rest[piece.length()..];
    }
    Ok(found)
}
