//! Programs of the whole language, parsed from the tokens of their source.

ghost use Rattle.std.specs.Prelude.{◌≡◌, ◌<◌, ◌^◌, IfErr, IfOk, length};
ghost use Rattle.pipe_model.specs.Language.MarkPlaces.{is_mark, mark_places};
ghost use Rattle.pipe_model.specs.Language.SourceRefusals.{fault_place};
ghost use Rattle.pipe_model.specs.Language.SyntaxTree.{tree_of};
ghost use Rattle.pipe_model.specs.Language.Tokens.{IsLexed, symbols_in};
ghost use Rattle.pipe_model.specs.Language.Spelling.{IsShallow, Spells};
ghost use Rattle.pipe_parser.specs.Depths.{OpensTooMany};
ghost use Rattle.pipe_parser.specs.Parses.{BreaksFirst, IsFault, IsPlaced};
ghost use Rattle.pipe_parser.specs.declared.parse.ParseFault.TheVariants as faults;

use crate::depth::first_too_deep;
use crate::fault::SyntaxFault;
use crate::program::read_program;
use crate::symbols::Symbols;
use pipe_model::list::Numbers;
use pipe_model::token::{Token, TokenKind, Tokens};
use pipe_model::tree::Program;
use pipe_model::word_codes::{ITER, PIPE_CONTINUE, PIPE_WAIT};
use std::alloc::{AllocError, Global};
use thiserror::Error;

/// A program and the offsets of its marks, in bytes from 0, in the order of the text. A mark is a
/// token that is a name or one of the words `iter`, `pipe_wait` and `pipe_continue`.
#[derive(Drop)]
pub struct Parsed {
    pub program: Program,
    pub places: Numbers,
}

/// Why tokens are no program. The first token that breaks a rule counts; if it breaks several, the
/// first of them in this order counts.
#[derive(Clone, Copy, PartialEq, Eq, Debug, Error)]
pub enum ParseFault {
    /// The token at this offset may not come there: some program begins with the tokens before it, and
    /// none with it too. Or the source, which has this length, ends too early.
    #[error("unexpected symbol at byte {0}")]
    Unexpected(u32),
    /// With the token at this offset more than 64 brackets are open.
    #[error("the bracket at byte {0} is too deep")]
    TooDeep(u32),
    /// The token at this offset is number 257 of an expression that is no part of another.
    #[error("the expression is too long at byte {0}")]
    TooLong(u32),
    /// Out of memory.
    #[error("out of memory")]
    NoMemory,
}

impl From<AllocError> for ParseFault {
    ghost from_gives = { λ _ fault. fault ≡ faults.NoMemory };

    fn from(_refused: AllocError) -> Self {
        ParseFault::NoMemory
    }
}

// Reads the program of symbols that never open too many brackets.
fn read_shallow(alloc: Global, symbols: &Symbols) -> Result<Program, SyntaxFault>
    requires { IsShallow symbols.now }
    ensures ok { IfOk result (λ program. Spells symbols.now (tree_of program)) }
    ensures err { IfErr result (λ fault. BreaksFirst symbols.now fault) }
{
    read_program(alloc, symbols)
}

// Returns the first fault of symbols of which number `count` opens a bracket too many. Reads no
// later symbol.
fn fault_up_to(alloc: Global, symbols: &Symbols, count: usize) -> SyntaxFault
    requires { OpensTooMany symbols.now count }
    ensures { BreaksFirst symbols.now result }
{
    let more = symbols.len() - count;
    let cut = symbols.prefix(count);
    let Err(fault) = read_program(alloc, &cut) else {
        return SyntaxFault::TooDeep(more + 1);
    };
    match fault {
        SyntaxFault::Unexpected(0) => SyntaxFault::TooDeep(more + 1),
        SyntaxFault::Unexpected(left) => SyntaxFault::Unexpected(left + more),
        SyntaxFault::TooLong(1) => SyntaxFault::TooDeep(more + 1),
        SyntaxFault::TooLong(left) => SyntaxFault::TooLong(left + more),
        _ => fault,
    }
}

// Reads the program of the symbols, with the bound on open brackets.
fn read_bounded(alloc: Global, symbols: &Symbols) -> Result<Program, SyntaxFault>
    ensures ok { IfOk result (λ program. Spells symbols.now (tree_of program)) }
    ensures err { IfErr result (λ fault. BreaksFirst symbols.now fault) }
{
    match first_too_deep(symbols) {
        Some(count) => Err(fault_up_to(alloc, symbols, count)),
        None => read_shallow(alloc, symbols),
    }
}

// The offset of the token at index `before`, in bytes; after the last token, the length of the
// source.
fn place_at(source: &[u8], tokens: &[Token], before: usize) -> u32
    requires { length source.now < 2 ^ 32 }
    ensures { result ≡ fault_place source.now tokens.now before }
{
    match tokens.get(before) {
        Some(token) => token.place,
        None => source.len() as u32,
    }
}

// The fault with its offset in the source; `all` is the number of symbols.
fn placed(source: &[u8], tokens: &[Token], all: usize, fault: SyntaxFault) -> ParseFault
    requires { length source.now < 2 ^ 32 }
    ensures { IsPlaced source.now tokens.now all fault result }
{
    match fault {
        SyntaxFault::Unexpected(left) => {
            ParseFault::Unexpected(place_at(source, tokens, all.saturating_sub(left)))
        }
        SyntaxFault::TooDeep(left) => {
            ParseFault::TooDeep(place_at(source, tokens, all.saturating_sub(left)))
        }
        SyntaxFault::TooLong(left) => {
            ParseFault::TooLong(place_at(source, tokens, all.saturating_sub(left)))
        }
        SyntaxFault::NoMemory => ParseFault::NoMemory,
    }
}

fn is_mark(kind: TokenKind) -> bool
    ensures { result ≡ is_mark kind }
{
    matches!(
        kind,
        TokenKind::Name | TokenKind::Word(PIPE_WAIT | PIPE_CONTINUE | ITER)
    )
}

fn places_of_marks(alloc: Global, tokens: &[Token]) -> Result<Numbers, ParseFault>
    ensures ok { IfOk result (λ places. places ≡ mark_places tokens.now) }
    ensures err { IfErr result (λ fault. fault ≡ faults.NoMemory) }
{
    let mut places = Numbers::new(alloc);
    for token in tokens {
        if is_mark(token.kind) {
            places
                .push(i64::from(token.place))
                .map_err(AllocError::from)?;
        }
    }
    Ok(places)
}

/// Parses the tokens of a source. On `Ok`, the program is the one that they spell. Otherwise the
/// fault is that of the first token that breaks a rule, with its offset in bytes, or with the
/// source's length if the source ends too early. `NoMemory` is returned if memory runs out,
/// whatever the tokens.
pub fn parse(alloc: Global, source: &[u8], tokens: &Tokens) -> Result<Parsed, ParseFault>
    requires lexed { IsLexed source.now tokens.now }
    ensures program { IfOk result (λ parsed. Spells (symbols_in source.now tokens.now) (tree_of parsed.program)) }
    ensures places { IfOk result (λ parsed. parsed.places ≡ mark_places tokens.now) }
    ensures fault { IfErr result (λ fault. IsFault source.now tokens.now fault) }
{
    let symbols = Symbols::new(source, tokens.as_slice());
    match read_bounded(alloc, &symbols) {
        Ok(program) => {
            let places = places_of_marks(alloc, tokens.as_slice())?;
            Ok(Parsed { program, places })
        }
        Err(fault) => Err(placed(source, tokens.as_slice(), symbols.len(), fault)),
    }
}
