//! The lowered loop, made statement by statement.

ghost use Rattle.std.specs.Prelude.{◌≡◌, ◌≤ℤ◌, IfOk, pos};
ghost use Rattle.pipe_model.specs.declared.operator_codes.TheConstants as operator_codes;
ghost use Rattle.pipe_model.specs.declared.tree.StageKind.TheVariants as kinds;
ghost use Rattle.pipe_model.specs.Language.SyntaxTree.{Empty, If as IfOf, Let as LetOf, NextStage, Then, While as WhileOf, Name as NameOf};
ghost use Rattle.pipe_model.specs.Language.SyntaxTree.{Number as NumberOf, Unary as UnaryOf, binary_expression, expression_of};
ghost use Rattle.pipe_model.specs.Language.SyntaxTree.{statement_of, statements_of};
ghost use Rattle.wave_laws.specs.Waves.LoweredLoops.{counts_row, lowered_body, lowered_test, lowered_turn, waits_for_left};
ghost use Rattle.wave_laws.specs.Waves.WaveLoops as rows;

use crate::form::ROW;
use pipe_model::memory::NoMemory;
use pipe_model::name::Name;
use pipe_model::operator_codes::{AT_LEAST, LESS, NEGATIVE, PLUS};
use pipe_model::tree::{Block, Expr, Stmt};
use program_copy::copy::copy_statement;
use std::alloc::Global;

// Returns the expression `row`.
fn row(alloc: Global) -> Result<Box<Expr>, NoMemory>
    ensures { IfOk result (λ e. expression_of e.value ≡ NameOf rows.row) }
{
    Ok(Box::new(alloc, Expr::Name(Name::new(alloc, ROW.as_slice())?))?)
}

// Returns an expression with the operator between `row` and a number.
fn row_and(alloc: Global, code: u8, number: i64) -> Result<Expr, NoMemory>
    ensures { IfOk result (λ e. expression_of e ≡ binary_expression code (NameOf rows.row) (NumberOf number)) }
{
    let left = row(alloc)?;
    Ok(Expr::Binary(code, left, Box::new(alloc, Expr::Number(number))?))
}

/// Returns the lowered test, `iter() < iterations`.
pub fn lowered_test(alloc: Global, iterations: i64) -> Result<Expr, NoMemory>
    ensures { IfOk result (λ e. expression_of e ≡ lowered_test iterations) }
{
    let left = Box::new(alloc, Expr::Iter)?;
    Ok(Expr::Binary(LESS, left, Box::new(alloc, Expr::Number(iterations))?))
}

// Returns `let row = -1;`.
fn row_before(alloc: Global) -> Result<Stmt, NoMemory>
    ensures { IfOk result (λ s. statement_of s ≡ LetOf rows.row (UnaryOf operator_codes.NEGATIVE (NumberOf (pos 1)))) }
{
    let one = Box::new(alloc, Expr::Number(1))?;
    let name = Name::new(alloc, ROW.as_slice())?;
    Ok(Stmt::Let(name, Expr::Unary(NEGATIVE, one)))
}

// Returns an `if`.
#[tactic(auto, using(pipe_model::proofs::NestedBlocks::if_seen))]
fn branch(test: Expr, then: Block, other: Block) -> Stmt
    ensures { statement_of result ≡ IfOf (expression_of test) (statements_of then.statements.items) (statements_of other.statements.items) }
{
    Stmt::If(test, then, other)
}

// Returns a `while`.
#[tactic(auto, using(pipe_model::proofs::NestedBlocks::while_seen))]
fn repeat(test: Expr, body: Block) -> Stmt
    ensures { statement_of result ≡ WhileOf (expression_of test) (statements_of body.statements.items) }
{
    Stmt::While(test, body)
}

// Returns the block `{ pipe_wait(); }`.
fn wait_block(alloc: Global) -> Result<Block, NoMemory>
    ensures { IfOk result (λ b. statements_of b.statements.items ≡ Then (NextStage kinds.Wait) Empty) }
{
    let mut statements = Vec::new(alloc);
    statements.push(Stmt::Wait(None))?;
    Ok(Block { statements })
}

// Returns the empty block.
fn empty_block(alloc: Global) -> Block
    ensures { statements_of result.statements.items ≡ Empty }
{
    Block {
        statements: Vec::new(alloc),
    }
}

// Returns `if (row >= 0) { pipe_wait(); }`.
fn wait_for_left(alloc: Global) -> Result<Stmt, NoMemory>
    ensures { IfOk result (λ s. statement_of s ≡ waits_for_left) }
{
    let test = row_and(alloc, AT_LEAST, 0)?;
    let then = wait_block(alloc)?;
    Ok(branch(test, then, empty_block(alloc)))
}

// Returns `row = row + 1;`.
fn count_row(alloc: Global) -> Result<Stmt, NoMemory>
    ensures { IfOk result (λ s. statement_of s ≡ counts_row) }
{
    let next = row_and(alloc, PLUS, 1)?;
    Ok(Stmt::Assign(Name::new(alloc, ROW.as_slice())?, next))
}

// Returns the body of the inner loop, which ends with copies of these statements.
fn lowered_turn(alloc: Global, rest: &[Stmt]) -> Result<Block, NoMemory>
    ensures { IfOk result (λ b. statements_of b.statements.items ≡ lowered_turn (statements_of rest.now)) }
{
    let mut statements = Vec::new(alloc);
    statements.push(wait_for_left(alloc)?)?;
    statements.push(count_row(alloc)?)?;
    for s in rest {
        statements.push(copy_statement(alloc, s)?)?;
    }
    Ok(Block { statements })
}

/// Returns the lowered body.
pub fn lowered_body(alloc: Global, stages: i64, rest: &[Stmt]) -> Result<Block, NoMemory>
    requires stages { pos 1 ≤ℤ stages }
    ensures { IfOk result (λ b. statements_of b.statements.items ≡ lowered_body stages (statements_of rest.now)) }
{
    let test = row_and(alloc, LESS, stages - 1)?;
    let turn = lowered_turn(alloc, rest)?;
    let mut statements = Vec::new(alloc);
    statements.push(row_before(alloc)?)?;
    statements.push(repeat(test, turn))?;
    Ok(Block { statements })
}
