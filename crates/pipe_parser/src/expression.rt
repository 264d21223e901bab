//! Expressions from symbols, by recursive descent.

ghost use Rattle.std.specs.Prelude.{◌≡◌, ◌∷◌, [], ◌<◌, ◌≤◌, ◌≢◌, IfOk, IfErr, IfSome, IfNone, length};
ghost use Rattle.pipe_model.specs.declared.sign_bytes.TheConstants as signs;
ghost use Rattle.pipe_model.specs.declared.symbol.Symbol.TheVariants as terminals;
ghost use Rattle.grammar_laws.specs.ExpressionMachine.{Sign, Operand, Index, Tail};
ghost use Rattle.pipe_model.specs.Language.SyntaxTree.{expression_of};
ghost use Rattle.pipe_model.specs.Language.Grammar.{any_expression, operand_level, level_of};
ghost use Rattle.grammar_laws.specs.Reading.{Reads, Extends, next_level};
ghost use Rattle.grammar_laws.specs.ProgramMachine as machine;
ghost use Rattle.pipe_parser.specs.SyntaxFaults as syntax;
ghost use Rattle.pipe_parser.specs.ExpressionFaults.{ExpressionStops, whole, closed, ReadsUnary};

use crate::fault::SyntaxFault;
use crate::symbols::Symbols;
use pipe_model::levels::{ANY_EXPRESSION, OPERAND};
use pipe_model::name::Name;
use pipe_model::operator_codes::{MINUS, NEGATIVE, NOT};
use pipe_model::token::TokenKind;
use pipe_model::tree::Expr;
use pipe_model::word_codes::{ITER, MORE, TAKE};
use std::alloc::{AllocError, Global};

/// The result of a reader: what it read, and the symbols after it.
pub type Read<'a, T> = Result<(T, Symbols<'a>), SyntaxFault>;

macro_rules! level_by_code {
    (($code:expr) $($row:literal $symbol:literal $length:literal $level:literal;)*) => {
        match $code {
            $($row => $level,)*
            _ => 0,
        }
    };
}

// The level of the binary operator with this code, from 1 to 6; 0 if no operator has the code.
fn level_of(code: u8) -> u8
    ensures { result ≡ level_of code }
{
    op_table::operators!(level_by_code, code)
}

// The first symbol, if it is an operator of the level, and the symbols after it.
fn operator_of_level<'a>(symbols: &Symbols<'a>, level: u8) -> Option<(u8, Symbols<'a>)>
    requires { 0 < level }
    ensures some { IfSome result (λ r. (symbols.now ≡ terminals.Operator r.0 ∷ r.1) × (level_of r.0 ≡ level)) }
    ensures none { IfNone result (next_level symbols.now ≢ level) }
{
    let first = symbols.first()?;
    match first.kind {
        TokenKind::Operator(code) => {
            if level_of(code) == level {
                Some((code, first.following))
            } else {
                None
            }
        }
        _ => None,
    }
}

fn boxed(alloc: Global, e: Expr) -> Result<Box<Expr>, AllocError>
    ensures { IfOk result (λ inner. inner.value ≡ e) }
{
    Ok(Box::new(alloc, e)?)
}

/// Returns the symbols after `sign`. Returns an error if `sign` does not come first.
pub fn expect_sign<'a>(symbols: &Symbols<'a>, sign: u8) -> Result<Symbols<'a>, SyntaxFault>
    ensures ok { IfOk result (λ following. symbols.now ≡ terminals.Sign sign ∷ following) }
    ensures stuck { IfErr result (λ fault. ExpressionStops (Sign sign ∷ []) symbols.now fault) }
    ensures err { IfErr result (λ fault. syntax.SyntaxStops (machine.Sign sign ∷ []) symbols.now fault) }
{
    match symbols.after_sign(sign) {
        Some(following) => Ok(following),
        None => Err(SyntaxFault::Unexpected(symbols.len())),
    }
}

// Reads the brackets of a call, after its word.
fn read_call<'a>(e: Expr, symbols: &Symbols<'a>) -> Read<'a, Expr>
    ensures ok { IfOk result (λ r. (symbols.now ≡ terminals.Sign signs.OPEN_ROUND ∷ terminals.Sign signs.CLOSE_ROUND ∷ r.1) × (r.0 ≡ e)) }
    ensures err { IfErr result (λ fault. ExpressionStops (Sign signs.OPEN_ROUND ∷ Sign signs.CLOSE_ROUND ∷ []) symbols.now fault) }
{
    let rest = expect_sign(symbols, b'(')?;
    let rest = expect_sign(&rest, b')')?;
    Ok((e, rest))
}

#[cycle(expression)]
fn read_operand<'a>(alloc: Global, symbols: &Symbols<'a>) -> Read<'a, Expr>
    ensures ok { IfOk result (λ r. Reads operand_level symbols.now (expression_of r.0) r.1) }
    ensures err { IfErr result (λ fault. ExpressionStops (Operand ∷ []) symbols.now fault) }
    ensures shorter { IfOk result (λ r. length r.1 < length symbols.now) }
{
    let Some(first) = symbols.first() else {
        return Err(SyntaxFault::Unexpected(0));
    };
    match first.kind {
        TokenKind::Number(n) => Ok((Expr::Number(n), first.following)),
        TokenKind::Name => read_named(alloc, first.text, first.following),
        TokenKind::Word(MORE) => read_call(Expr::More, &first.following),
        TokenKind::Word(TAKE) => read_call(Expr::Take, &first.following),
        TokenKind::Word(ITER) => read_call(Expr::Iter, &first.following),
        TokenKind::Operator(MINUS) => read_unary(alloc, NEGATIVE, &first.following),
        TokenKind::Sign(b'!') => read_unary(alloc, NOT, &first.following),
        TokenKind::Sign(b'(') => read_closed(alloc, b')', &first.following),
        _ => Err(SyntaxFault::Unexpected(symbols.len())),
    }
}

// Reads an expression and the sign that closes it.
#[cycle(expression)]
fn read_closed<'a>(alloc: Global, sign: u8, symbols: &Symbols<'a>) -> Read<'a, Expr>
    ensures ok { IfOk result (λ r. Reads any_expression symbols.now (expression_of r.0) (terminals.Sign sign ∷ r.1)) }
    ensures err { IfErr result (λ fault. ExpressionStops (closed sign) symbols.now fault) }
    ensures shorter { IfOk result (λ r. length r.1 < length symbols.now) }
{
    let (e, rest) = read_expression(alloc, ANY_EXPRESSION, symbols)?;
    let rest = expect_sign(&rest, sign)?;
    Ok((e, rest))
}

// Reads what follows a name: an index or nothing.
#[cycle(expression)]
fn read_named<'a>(alloc: Global, name: &[u8], symbols: Symbols<'a>) -> Read<'a, Expr>
    ensures ok { IfOk result (λ r. Reads operand_level (terminals.Name name.now ∷ symbols.entry) (expression_of r.0) r.1) }
    ensures err { IfErr result (λ fault. ExpressionStops (Index ∷ []) symbols.entry fault) }
    ensures shorter { IfOk result (λ r. length r.1 ≤ length symbols.entry) }
{
    let name = Name::new(alloc, name)?;
    match symbols.after_sign(b'[') {
        Some(inside) => {
            let (e, rest) = read_closed(alloc, b']', &inside)?;
            Ok((Expr::Element(name, boxed(alloc, e)?), rest))
        }
        None => Ok((Expr::Name(name), symbols)),
    }
}

// Reads the operand of a unary operator, after the operator.
#[cycle(expression)]
fn read_unary<'a>(alloc: Global, code: u8, symbols: &Symbols<'a>) -> Read<'a, Expr>
    ensures ok { IfOk result (λ r. ReadsUnary code symbols.now (expression_of r.0) r.1) }
    ensures err { IfErr result (λ fault. ExpressionStops (Operand ∷ []) symbols.now fault) }
    ensures shorter { IfOk result (λ r. length r.1 < length symbols.now) }
{
    let (e, rest) = read_operand(alloc, symbols)?;
    Ok((Expr::Unary(code, boxed(alloc, e)?), rest))
}

/// Reads an expression of the level. Returns an error if a symbol may not come there, if the
/// symbols end too early, or if memory runs out.
#[cycle(expression)]
pub fn read_expression<'a>(alloc: Global, level: u8, symbols: &Symbols<'a>) -> Read<'a, Expr>
    requires from { any_expression ≤ level }
    requires to { level ≤ operand_level }
    ensures ok { IfOk result (λ r. Reads level symbols.now (expression_of r.0) r.1) }
    ensures err { IfErr result (λ fault. ExpressionStops whole symbols.now fault) }
    ensures shorter { IfOk result (λ r. length r.1 < length symbols.now) }
{
    if level == OPERAND {
        return first_operand(alloc, symbols);
    }
    let (first, rest) = read_expression(alloc, level + 1, symbols)?;
    extend(alloc, level, first, rest)
}

// Reads the first operand of an expression; its fault is a fault of the expression.
#[cycle(expression)]
fn first_operand<'a>(alloc: Global, symbols: &Symbols<'a>) -> Read<'a, Expr>
    ensures ok { IfOk result (λ r. Reads operand_level symbols.now (expression_of r.0) r.1) }
    ensures err { IfErr result (λ fault. ExpressionStops whole symbols.now fault) }
    ensures shorter { IfOk result (λ r. length r.1 < length symbols.now) }
{
    let (e, rest) = read_operand(alloc, symbols)?;
    Ok((e, rest))
}

// Extends an expression by the operators of the level that follow, each with its right side.
#[cycle(expression)]
fn extend<'a>(alloc: Global, level: u8, first: Expr, symbols: Symbols<'a>) -> Read<'a, Expr>
    requires from { any_expression ≤ level }
    requires to { level < operand_level }
    ensures ok { IfOk result (λ r. Extends level (expression_of first) symbols.entry (expression_of r.0) r.1) }
    ensures err { IfErr result (λ fault. ExpressionStops (Tail ∷ []) symbols.entry fault) }
    ensures shorter { IfOk result (λ r. length r.1 ≤ length symbols.entry) }
{
    let mut joined = first;
    let mut rest = symbols;
    while let Some((code, following)) = operator_of_level(&rest, level) {
        let (second, after) = read_expression(alloc, level + 1, &following)?;
        joined = Expr::Binary(code, boxed(alloc, joined)?, boxed(alloc, second)?);
        rest = after;
    }
    Ok((joined, rest))
}
