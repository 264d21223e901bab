//! The marks of statements.

ghost use Rattle.std.specs.Prelude.{◌≡◌, OnOk};
ghost use Rattle.pipe_check.specs.Passing.{Fits, PassesMarks};
ghost use Rattle.pipe_model.specs.Language.Marks.{after_block, after_statement, marks_of_statement, marks_of_statements};
ghost use Rattle.pipe_model.specs.Language.SyntaxTree.{Assign, AssignElement, Let, expression_of, stage_statement, statement_of};
ghost use Rattle.pipe_model.specs.Language.SyntaxTree.{statements_of};
ghost use Rattle.pipe_model.specs.declared.tree.StageKind.TheVariants as kinds;

use crate::expression::check_expression;
use crate::fault::CheckFault;
use crate::scope::Scope;
use pipe_model::name::Name;
use pipe_model::tree::{Block, Expr, Stmt};
use std::alloc::Global;

// Checks a declaration of a local, which is in scope after its expression.
fn check_let(
    alloc: Global,
    scope: &mut Scope,
    next: u32,
    name: &Name,
    e: &Expr,
) -> Result<u32, CheckFault>
    requires fits { Fits next (marks_of_statement scope.old (Let name.now (expression_of e.now))) }
    ensures marks { PassesMarks result next (marks_of_statement scope.old (Let name.now (expression_of e.now))) }
    ensures scope_after { OnOk result (scope.new ≡ after_statement scope.old (Let name.now (expression_of e.now))) }
{
    let next = scope.check_local(next, name)?;
    let next = check_expression(scope, next, e)?;
    scope.declare(alloc, name)?;
    Ok(next)
}

// Checks an assignment to a local or a plain cell.
fn check_assign(scope: &Scope, next: u32, name: &Name, e: &Expr) -> Result<u32, CheckFault>
    requires fits { Fits next (marks_of_statement scope.now (Assign name.now (expression_of e.now))) }
    ensures { PassesMarks result next (marks_of_statement scope.now (Assign name.now (expression_of e.now))) }
{
    let next = scope.check_plain(next, name)?;
    check_expression(scope, next, e)
}

// Checks an assignment to an element of an array.
fn check_element(
    scope: &Scope,
    next: u32,
    name: &Name,
    i: &Expr,
    e: &Expr,
) -> Result<u32, CheckFault>
    requires fits { Fits next (marks_of_statement scope.now (AssignElement name.now (expression_of i.now) (expression_of e.now))) }
    ensures { PassesMarks result next (marks_of_statement scope.now (AssignElement name.now (expression_of i.now) (expression_of e.now))) }
{
    let next = scope.check_indexed(next, name)?;
    let next = check_expression(scope, next, i)?;
    check_expression(scope, next, e)
}

// Checks a stage statement, with or without a number.
fn check_stage(scope: &Scope, next: u32, number: &Option<Expr>) -> Result<u32, CheckFault>
    requires fits { Fits next (marks_of_statement scope.now (stage_statement kinds.Wait number.now)) }
    ensures { PassesMarks result next (marks_of_statement scope.now (stage_statement kinds.Wait number.now)) }
{
    let next = scope.check_stage(next)?;
    match number {
        Some(e) => check_expression(scope, next, e),
        None => Ok(next),
    }
}

// Checks the marks of a statement, numbered from `next`. Returns the number
// after the last mark, or the first fault. On `Ok`, the scope is that after the statement.
#[cycle(walk)]
fn check_statement(alloc: Global, scope: &mut Scope, next: u32, s: &Stmt) -> Result<u32, CheckFault>
    requires fits { Fits next (marks_of_statement scope.old (statement_of s.now)) }
    ensures marks { PassesMarks result next (marks_of_statement scope.old (statement_of s.now)) }
    ensures scope_after { OnOk result (scope.new ≡ after_statement scope.old (statement_of s.now)) }
{
    match s {
        Stmt::Let(name, e) => check_let(alloc, scope, next, name, e),
        Stmt::Assign(name, e) => check_assign(scope, next, name, e),
        Stmt::AssignElement(name, i, e) => check_element(scope, next, name, i, e),
        Stmt::Emit(e) => check_expression(scope, next, e),
        Stmt::If(e, a, b) => {
            let next = check_expression(scope, next, e)?;
            let next = check_block(alloc, scope, next, a)?;
            check_block(alloc, scope, next, b)
        }
        Stmt::While(e, a) => {
            let next = check_expression(scope, next, e)?;
            check_block(alloc, scope, next, a)
        }
        Stmt::Wait(number) => check_stage(scope, next, number),
        Stmt::Continue(number) => check_stage(scope, next, number),
    }
}

/// Checks the marks of a block, numbered from `next`. Returns the number after
/// the last mark, or the first fault. On `Ok`, the block's locals are out of scope.
#[cycle(walk)]
pub fn check_block(
    alloc: Global,
    scope: &mut Scope,
    next: u32,
    block: &Block,
) -> Result<u32, CheckFault>
    requires fits { Fits next (marks_of_statements scope.old (statements_of block.now.statements.items)) }
    ensures marks { PassesMarks result next (marks_of_statements scope.old (statements_of block.now.statements.items)) }
    ensures scope_after { OnOk result (scope.new ≡ after_block scope.old (statements_of block.now.statements.items)) }
{
    let visible = scope.visible_len();
    let mut next = next;
    for s in &block.statements {
        next = check_statement(alloc, scope, next, s)?;
    }
    scope.leave(visible);
    Ok(next)
}
