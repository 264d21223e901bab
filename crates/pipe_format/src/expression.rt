//! The text of expressions.

ghost use Rattle.std.specs.Prelude.{◌≡◌, ◌+◌, ◌++◌, codes, OnOk};
ghost use Rattle.pipe_model.specs.Language.CanonicalText.{at_level, expression_text, level_in, unary_text, operator_text};
ghost use Rattle.pipe_model.specs.Language.SyntaxTree.{expression_of};
ghost use Rattle.pipe_model.specs.Language.Grammar.{level_of, operand_level};

use crate::text::push_number;
use pipe_model::levels::OPERAND;
use pipe_model::memory::NoMemory;
use pipe_model::name::Name;
use pipe_model::operator_codes::NEGATIVE;
use pipe_model::tree::Expr;

macro_rules! level_by_code {
    (($code:expr) $($row:literal $symbol:literal $length:literal $level:literal;)*) => {
        match $code {
            $($row => $level,)*
            _ => 0,
        }
    };
}

macro_rules! symbol_by_code {
    (($code:expr) $($row:literal $symbol:literal $length:literal $level:literal;)*) => {
        match $code {
            $($row => &$symbol[..$length],)*
            _ => b"",
        }
    };
}

// The level of the binary operator of a code; 0 if no operator has the code.
fn level_of(code: u8) -> u8
    ensures { result ≡ level_of code }
{
    op_table::operators!(level_by_code, code)
}

// The symbol of the binary operator of a code; empty if no operator has the code.
fn symbol_of(code: u8) -> &'static [u8]
    ensures { result.now ≡ operator_text code }
{
    op_table::operators!(symbol_by_code, code)
}

fn unary_symbol(code: u8) -> &'static [u8]
    ensures { result.now ≡ unary_text code }
{
    if code == NEGATIVE { b"-" } else { b"!" }
}

// The level of the expression's binary operator, or of operands if it has none.
fn level_in(e: &Expr) -> u8
    ensures { result ≡ level_in (expression_of e.now) }
{
    match e {
        Expr::Binary(code, _, _) => level_of(*code),
        _ => OPERAND,
    }
}

/// Appends an element of an array. Returns an error only if memory runs out.
#[cycle(expression)]
pub fn push_element(text: &mut Vec<u8>, name: &Name, index: &Expr) -> Result<(), NoMemory>
    ensures { OnOk result (text.new.items
        ≡ text.old.items ++ (name.now ++ (codes "[" ++ (expression_text (expression_of index.now) ++ codes "]")))) }
{
    text.extend_from_slice(name.as_bytes())?;
    text.push(b'[')?;
    push_expression(text, index)?;
    text.push(b']')?;
    Ok(())
}

// Appends an expression where a level is needed: in round brackets if its own level is lower.
#[cycle(expression)]
fn push_at_level(text: &mut Vec<u8>, needed: u8, e: &Expr) -> Result<(), NoMemory>
    ensures { OnOk result (text.new.items
        ≡ text.old.items ++ at_level needed (level_in (expression_of e.now)) (expression_text (expression_of e.now))) }
{
    if needed <= level_in(e) {
        return push_expression(text, e);
    }
    text.push(b'(')?;
    push_expression(text, e)?;
    text.push(b')')?;
    Ok(())
}

/// Appends an expression. Returns an error only if memory runs out.
#[cycle(expression)]
pub fn push_expression(text: &mut Vec<u8>, e: &Expr) -> Result<(), NoMemory>
    ensures { OnOk result (text.new.items ≡ text.old.items ++ expression_text (expression_of e.now)) }
{
    match e {
        Expr::Number(number) => push_number(text, *number),
        Expr::Name(name) => Ok(text.extend_from_slice(name.as_bytes())?),
        Expr::Element(name, index) => push_element(text, name, index),
        Expr::Binary(code, left, right) => {
            push_at_level(text, level_of(*code), left)?;
            text.push(b' ')?;
            text.extend_from_slice(symbol_of(*code))?;
            text.push(b' ')?;
            push_at_level(text, level_of(*code) + 1, right)
        }
        Expr::Unary(code, operand) => {
            text.extend_from_slice(unary_symbol(*code))?;
            push_at_level(text, OPERAND, operand)
        }
        Expr::More => Ok(text.extend_from_slice(b"more()")?),
        Expr::Take => Ok(text.extend_from_slice(b"take()")?),
        Expr::Iter => Ok(text.extend_from_slice(b"iter()")?),
    }
}
