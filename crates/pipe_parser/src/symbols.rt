//! The symbols of a source: its tokens, as the grammar names them.

ghost use Rattle.std.specs.Prelude.{◌≡◌, ◌∷◌, [], IfSome, IfNone, drop, length, take};
ghost use Rattle.pipe_model.specs.Language.Tokens.{symbol_as, symbols_in, text_in};
ghost use Rattle.grammar_laws.specs.Reading.{NoSign, NoWord};
ghost use Rattle.pipe_model.specs.declared.symbol.Symbol.TheVariants.{Name, Number, Operator, Sign, Word};
ghost use Rattle.pipe_parser.specs.SymbolFronts.{NoName, NoNumber, NoOperator};

use pipe_model::token::{Token, TokenKind};
use std::marker::Model;

/// The symbols of tokens in their source. Contracts see them as a list.
#[derive(Drop)]
pub struct Symbols<'a> {
    source: &'a [u8],
    tokens: &'a [Token],
}

impl<'a> Model for Symbols<'a> {
    ghost use Rattle.std.specs.Prelude.{List};
    ghost use Rattle.pipe_model.specs.Language.Tokens.{symbols_in};
    ghost use Rattle.pipe_model.specs.declared.symbol.Symbol.{Symbol};

    ghost Value = { List Symbol };

    ghost view = { λ s. symbols_in s.source.now s.tokens.now };
}

/// The first of some symbols: its kind and text, and the symbols after it.
#[derive(Drop)]
pub struct First<'a> {
    pub kind: TokenKind,
    pub text: &'a [u8],
    pub following: Symbols<'a>,
}

// The bytes of a token in its source.
fn text_of<'a>(source: &'a [u8], token: Token) -> &'a [u8]
    ensures { result.now ≡ text_in source.now token }
{
    let following = source.get(token.place as usize..).unwrap_or(&[]);
    following.get(..token.length as usize).unwrap_or(following)
}

// The first `count` tokens, or all if there are fewer.
fn prefix_of(tokens: &[Token], count: usize) -> &[Token]
    ensures { result.now ≡ take count tokens.now }
{
    tokens.get(..count).unwrap_or(tokens)
}

// The tokens after the first `count`.
fn suffix_of(tokens: &[Token], count: usize) -> &[Token]
    ensures { result.now ≡ drop count tokens.now }
{
    tokens.get(count..).unwrap_or(&[])
}

impl<'a> Symbols<'a> {
    /// Returns the symbols of the tokens of a source.
    pub fn new(source: &'a [u8], tokens: &'a [Token]) -> Symbols<'a>
        ensures { result ≡ symbols_in source.now tokens.now }
    {
        Symbols { source, tokens }
    }

    /// Returns the number of symbols.
    pub fn len(&self) -> usize
        ensures { result ≡ length self.now }
    {
        self.tokens.len()
    }

    /// Returns the first `count` symbols, or all if there are fewer.
    pub fn prefix(&self, count: usize) -> Symbols<'a>
        ensures { result ≡ take count self.now }
    {
        Symbols {
            source: self.source,
            tokens: prefix_of(self.tokens, count),
        }
    }

    /// Returns the symbols after the first `count`.
    pub fn skip(&self, count: usize) -> Symbols<'a>
        ensures { result ≡ drop count self.now }
    {
        Symbols {
            source: self.source,
            tokens: suffix_of(self.tokens, count),
        }
    }

    /// Returns the first symbol; `None` if there is none.
    pub fn first(&self) -> Option<First<'a>>
        ensures some { IfSome result (λ first. self.now ≡ symbol_as first.kind first.text.now ∷ first.following) }
        ensures none { IfNone result (self.now ≡ []) }
    {
        let (token, following) = self.tokens.split_first()?;
        Some(First {
            kind: token.kind,
            text: text_of(self.source, *token),
            following: Symbols {
                source: self.source,
                tokens: following,
            },
        })
    }

    /// Returns the symbols after the sign, if it comes first.
    pub fn after_sign(&self, sign: u8) -> Option<Symbols<'a>>
        ensures some { IfSome result (λ following. self.now ≡ Sign sign ∷ following) }
        ensures none { IfNone result (NoSign sign self.now) }
    {
        match self.first() {
            Some(
                First {
                    kind: TokenKind::Sign(b),
                    following,
                    ..
                },
            ) if b == sign => Some(following),
            _ => None,
        }
    }

    /// Returns the symbols after the reserved word, if it comes first.
    pub fn after_word(&self, word: u8) -> Option<Symbols<'a>>
        ensures some { IfSome result (λ following. self.now ≡ Word word ∷ following) }
        ensures none { IfNone result (NoWord word self.now) }
    {
        match self.first() {
            Some(
                First {
                    kind: TokenKind::Word(k),
                    following,
                    ..
                },
            ) if k == word => Some(following),
            _ => None,
        }
    }

    /// Returns the text of the first symbol and the symbols after it, if the first is a name.
    pub fn after_name(&self) -> Option<(&'a [u8], Symbols<'a>)>
        ensures some { IfSome result (λ r. self.now ≡ Name r.0.now ∷ r.1) }
        ensures none { IfNone result (NoName self.now) }
    {
        match self.first() {
            Some(
                First {
                    kind: TokenKind::Name,
                    text,
                    following,
                },
            ) => Some((text, following)),
            _ => None,
        }
    }

    /// Returns the value of the first symbol and the symbols after it, if the first is a number.
    pub fn after_number(&self) -> Option<(i64, Symbols<'a>)>
        ensures some { IfSome result (λ r. self.now ≡ Number r.0 ∷ r.1) }
        ensures none { IfNone result (NoNumber self.now) }
    {
        match self.first() {
            Some(
                First {
                    kind: TokenKind::Number(n),
                    following,
                    ..
                },
            ) => Some((n, following)),
            _ => None,
        }
    }

    /// Returns the symbols after the operator, if it comes first.
    pub fn after_operator(&self, code: u8) -> Option<Symbols<'a>>
        ensures some { IfSome result (λ following. self.now ≡ Operator code ∷ following) }
        ensures none { IfNone result (NoOperator code self.now) }
    {
        match self.first() {
            Some(
                First {
                    kind: TokenKind::Operator(other),
                    following,
                    ..
                },
            ) if other == code => Some(following),
            _ => None,
        }
    }
}
