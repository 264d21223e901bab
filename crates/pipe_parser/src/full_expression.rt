//! Full expressions: those that are no part of another.

ghost use Rattle.std.specs.Prelude.{◌<◌, [], ◌∷◌, IfOk, IfErr, length};
ghost use Rattle.grammar_laws.specs.ProgramMachine as machine;
ghost use Rattle.pipe_model.specs.Language.SyntaxTree.{expression_of};
ghost use Rattle.grammar_laws.specs.Reading.{ReadsFull};
ghost use Rattle.pipe_model.specs.declared.bounds.TheConstants as bounds;
ghost use Rattle.pipe_parser.specs.SyntaxFaults.{SyntaxStops};

use crate::expression::{Read, read_expression};
use crate::fault::SyntaxFault;
use crate::symbols::Symbols;
use pipe_model::bounds::LONGEST_EXPRESSION;
use pipe_model::levels::ANY_EXPRESSION;
use pipe_model::tree::Expr;
use std::alloc::Global;

/// Reads a full expression. It looks at no more than 257 symbols, one more than such an expression
/// may have, so its recursion goes no deeper than that, however long the source is. Returns an
/// error if a symbol breaks a rule, if the symbols end too early, or if memory runs out.
pub fn read_full<'a>(alloc: Global, symbols: &Symbols<'a>) -> Read<'a, Expr>
    ensures ok { IfOk result (λ r. ReadsFull bounds.LONGEST_EXPRESSION symbols.now (expression_of r.0) r.1) }
    ensures err { IfErr result (λ fault. SyntaxStops (machine.FullExpression ∷ []) symbols.now fault) }
    ensures shorter { IfOk result (λ r. length r.1 < length symbols.now) }
{
    if LONGEST_EXPRESSION < symbols.len() {
        return read_in_window(alloc, symbols);
    }
    let (e, rest) = read_expression(alloc, ANY_EXPRESSION, symbols)?;
    Ok((e, rest))
}

// Reads a full expression from more symbols than it may have.
fn read_in_window<'a>(alloc: Global, symbols: &Symbols<'a>) -> Read<'a, Expr>
    requires { bounds.LONGEST_EXPRESSION < length symbols.now }
    ensures ok { IfOk result (λ r. ReadsFull bounds.LONGEST_EXPRESSION symbols.now (expression_of r.0) r.1) }
    ensures err { IfErr result (λ fault. SyntaxStops (machine.FullExpression ∷ []) symbols.now fault) }
    ensures shorter { IfOk result (λ r. length r.1 < length symbols.now) }
{
    let more = symbols.len() - (LONGEST_EXPRESSION + 1);
    let window = symbols.prefix(LONGEST_EXPRESSION + 1);
    match read_expression(alloc, ANY_EXPRESSION, &window) {
        Ok((e, rest)) => {
            if rest.len() == 0 {
                return Err(SyntaxFault::TooLong(more + 1));
            }
            Ok((e, symbols.skip(LONGEST_EXPRESSION + 1 - rest.len())))
        }
        Err(SyntaxFault::Unexpected(left)) => {
            if left == 0 {
                return Err(SyntaxFault::TooLong(more + 1));
            }
            Err(SyntaxFault::Unexpected(left + more))
        }
        Err(fault) => Err(fault),
    }
}
