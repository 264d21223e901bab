//! The number of open brackets.

ghost use Rattle.std.specs.Prelude.{◌≡◌, IfNone, IfSome, List, cond, ℕ};
ghost use Rattle.pipe_model.specs.Language.Tokens.{symbol_as};
ghost use Rattle.pipe_model.specs.Language.Spelling.{is_opening_bracket, is_closing_bracket, IsShallow};
ghost use Rattle.pipe_parser.specs.Depths.{OpensTooMany};

use crate::symbols::Symbols;
use pipe_model::bounds::MOST_OPEN_BRACKETS;
use pipe_model::token::TokenKind;

fn is_opening_bracket(kind: TokenKind) -> bool
    ensures { (text : List ℕ) → result ≡ is_opening_bracket (symbol_as kind text) }
{
    match kind {
        TokenKind::Sign(b) => matches!(b, b'(' | b'[' | b'{'),
        _ => false,
    }
}

fn is_closing_bracket(kind: TokenKind) -> bool
    ensures { (text : List ℕ) → result ≡ is_closing_bracket (symbol_as kind text) }
{
    match kind {
        TokenKind::Sign(b) => matches!(b, b')' | b']' | b'}'),
        _ => false,
    }
}

fn one_where(is_so: bool) -> usize
    ensures { result ≡ cond is_so 1 0 }
{
    if is_so { 1 } else { 0 }
}

/// Returns the number of symbols up to and including the first with which more than 64 brackets are
/// open; `None` if there is none.
pub fn first_too_deep(symbols: &Symbols) -> Option<usize>
    ensures some { IfSome result (λ k. OpensTooMany symbols.now k) }
    ensures none { IfNone result (IsShallow symbols.now) }
{
    let all = symbols.len();
    let mut opened: usize = 0;
    let mut closed: usize = 0;
    let mut rest = symbols.skip(0);
    while let Some(first) = rest.first() {
        opened += one_where(is_opening_bracket(first.kind));
        closed += one_where(is_closing_bracket(first.kind));
        if MOST_OPEN_BRACKETS < opened.saturating_sub(closed) {
            return Some(all - first.following.len());
        }
        rest = first.following;
    }
    None
}
