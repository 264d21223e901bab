//! The first mark of a kind: the word of a stage statement, or an assignment's target `row`.

ghost use Rattle.std.specs.Prelude.{◌≡◌, ◌+◌, false, length};
ghost use Rattle.pipe_model.specs.declared.bounds.TheConstants as bounds;
ghost use Rattle.pipe_model.specs.declared.tree.StageKind.TheVariants as kinds;
ghost use Rattle.pipe_model.specs.Language.SyntaxTree.{Assign, expression_of, stage_statement, statement_of, statements_of};
ghost use Rattle.wave_laws.specs.Waves.MarkFlags.{flags_of_statement, flags_of_statements, no_flags};
ghost use Rattle.wave_lower.specs.Searches.{Finds, Fits};

use crate::form::is_row;
use pipe_model::name::Name;
use pipe_model::tree::{Block, Expr, Stmt};

// Returns the number after the marks of an expression, which are numbered from `next`.
fn after_expression(next: u32, e: &Expr) -> u32
    requires { Fits next (no_flags (expression_of e.now)) }
    ensures { result ≡ next + length (no_flags (expression_of e.now)) }
{
    match e {
        Expr::Number(_) | Expr::More | Expr::Take => next,
        Expr::Name(_) | Expr::Iter => next + 1,
        Expr::Element(_, i) => after_expression(next + 1, i),
        Expr::Binary(_, a, b) => after_expression(after_expression(next, a), b),
        Expr::Unary(_, a) => after_expression(next, a),
    }
}

// Searches a stage statement, with or without a number.
fn find_in_stage(stage: bool, next: u32, number: &Option<Expr>) -> Result<u32, u32>
    requires { Fits next (flags_of_statement stage false (stage_statement kinds.Wait number.now)) }
    ensures { Finds result next (flags_of_statement stage false (stage_statement kinds.Wait number.now)) }
{
    if stage {
        return Err(next);
    }
    match number {
        Some(e) => Ok(after_expression(next + 1, e)),
        None => Ok(next + 1),
    }
}

// Searches an assignment to a local or a plain cell.
fn find_in_assign(target: bool, next: u32, name: &Name, e: &Expr) -> Result<u32, u32>
    requires { Fits next (flags_of_statement false target (Assign name.now (expression_of e.now))) }
    ensures { Finds result next (flags_of_statement false target (Assign name.now (expression_of e.now))) }
{
    if target && is_row(name) {
        return Err(next);
    }
    Ok(after_expression(next + 1, e))
}

// Searches a statement whose first mark has the number `next`: for the word of a stage statement if
// `stage`, and for the target `row` of an assignment if `target`. Returns the number after the last
// mark, or that of the first mark found.
#[cycle(walk)]
fn find_in_statement(stage: bool, target: bool, next: u32, s: &Stmt) -> Result<u32, u32>
    requires { Fits next (flags_of_statement stage target (statement_of s.now)) }
    ensures { Finds result next (flags_of_statement stage target (statement_of s.now)) }
{
    match s {
        Stmt::Let(_, e) => Ok(after_expression(next + 1, e)),
        Stmt::Assign(name, e) => find_in_assign(target, next, name, e),
        Stmt::AssignElement(_, i, e) => Ok(after_expression(after_expression(next + 1, i), e)),
        Stmt::Emit(e) => Ok(after_expression(next, e)),
        Stmt::If(e, a, b) => {
            let next = find_in_block(stage, target, after_expression(next, e), a)?;
            find_in_block(stage, target, next, b)
        }
        Stmt::While(e, a) => find_in_block(stage, target, after_expression(next, e), a),
        Stmt::Wait(number) => find_in_stage(stage, next, number),
        Stmt::Continue(number) => find_in_stage(stage, next, number),
    }
}

/// Searches a block in the same way.
#[cycle(walk)]
pub fn find_in_block(stage: bool, target: bool, next: u32, block: &Block) -> Result<u32, u32>
    requires { Fits next (flags_of_statements stage target (statements_of block.now.statements.items)) }
    ensures { Finds result next (flags_of_statements stage target (statements_of block.now.statements.items)) }
{
    let mut next = next;
    for s in &block.statements {
        next = find_in_statement(stage, target, next, s)?;
    }
    Ok(next)
}
