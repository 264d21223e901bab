//! Heights of the stack.

ghost use Rattle.std.specs.Prelude.{◌≡◌, ◌≤◌, ◌<◌};
ghost use Rattle.pipe_model.specs.Language.SyntaxTree.{expression_of, statement_of, statements_of, stage_statement};
ghost use Rattle.pipe_model.specs.declared.tree.StageKind.TheVariants as stage_kinds;
ghost use Rattle.stage_code.specs.Heights.{greater, height_of, height_of_statement, height_of_statements};
ghost use Rattle.stage_code.specs.declared.code_bounds.TheConstants as code_bounds;

use crate::expression::is_short;
use pipe_model::tree::{Block, Expr, Stmt};

// Returns the greater of two numbers.
pub fn greater(a: u32, b: u32) -> u32
    ensures { result ≡ greater a b }
{
    if a < b { b } else { a }
}

// Returns how many numbers are on the stack at most while an expression is evaluated.
pub fn height_of(e: &Expr) -> u32
    requires { height_of (expression_of e.now) ≤ code_bounds.HIGHEST_STACK }
    ensures { result ≡ height_of (expression_of e.now) }
{
    match e {
        Expr::Number(_) | Expr::Name(_) | Expr::More | Expr::Take | Expr::Iter => 1,
        Expr::Element(_, i) => height_of(i),
        Expr::Binary(code, a, b) => {
            let left = height_of(a);
            let right = height_of(b);
            // The left value is below the right one, but `&&` and `||` pop it first.
            if is_short(*code) {
                greater(left, right)
            } else {
                greater(left, right + 1)
            }
        }
        Expr::Unary(_, a) => height_of(a),
    }
}

// The same while a stage statement runs.
fn height_of_stage(number: &Option<Expr>) -> u32
    requires { height_of_statement (stage_statement stage_kinds.Wait number.now) ≤ code_bounds.HIGHEST_STACK }
    ensures { result ≡ height_of_statement (stage_statement stage_kinds.Wait number.now) }
{
    match number {
        Some(e) => height_of(e),
        None => 0,
    }
}

// The same while a statement runs.
#[cycle(walk)]
fn height_of_statement(s: &Stmt) -> u32
    requires { height_of_statement (statement_of s.now) ≤ code_bounds.HIGHEST_STACK }
    ensures { result ≡ height_of_statement (statement_of s.now) }
{
    match s {
        Stmt::Let(_, e) | Stmt::Assign(_, e) | Stmt::Emit(e) => height_of(e),
        Stmt::AssignElement(_, i, e) => greater(height_of(i), height_of(e) + 1),
        Stmt::If(e, a, b) => greater(
            height_of(e),
            greater(height_of_block(a), height_of_block(b)),
        ),
        Stmt::While(e, a) => greater(height_of(e), height_of_block(a)),
        Stmt::Wait(number) => height_of_stage(number),
        Stmt::Continue(number) => height_of_stage(number),
    }
}

// The same while a block runs.
#[cycle(walk)]
pub fn height_of_block(block: &Block) -> u32
    requires { height_of_statements (statements_of block.now.statements.items) ≤ code_bounds.HIGHEST_STACK }
    ensures { result ≡ height_of_statements (statements_of block.now.statements.items) }
{
    let mut most = 0;
    for s in &block.statements {
        most = greater(most, height_of_statement(s));
    }
    most
}
