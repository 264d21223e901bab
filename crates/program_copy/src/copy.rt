//! Copies of programs, of parts of them, and of inputs.

ghost use Rattle.std.specs.Prelude.{◌≡◌, IfOk};
ghost use Rattle.pipe_model.specs.Language.SyntaxTree.{expression_of, stage_statement, statement_of, statements_of, tree_of};
ghost use Rattle.pipe_model.specs.declared.tree.StageKind.{StageKind as PlainStageKind};

use pipe_model::list::Numbers;
use pipe_model::memory::NoMemory;
use pipe_model::name::Name;
use pipe_model::tree::{Block, Declaration, Declarations, Expr, Program, Stmt};
use std::alloc::Global;

/// Returns a copy of a list of numbers. Returns an error only if memory runs out.
pub fn copy_numbers(alloc: Global, numbers: &Numbers) -> Result<Numbers, NoMemory>
    ensures { IfOk result (λ copy. copy ≡ numbers.now) }
{
    Ok(Numbers::from_vec(numbers.as_slice().to_vec(alloc)?))
}

fn copy_name(alloc: Global, name: &Name) -> Result<Name, NoMemory>
    ensures { IfOk result (λ copy. copy ≡ name.now) }
{
    Ok(Name::new(alloc, name.as_bytes())?)
}

fn copy_expression(alloc: Global, e: &Expr) -> Result<Expr, NoMemory>
    ensures { IfOk result (λ copy. expression_of copy ≡ expression_of e.now) }
{
    match e {
        Expr::Number(number) => Ok(Expr::Number(*number)),
        Expr::Name(name) => Ok(Expr::Name(copy_name(alloc, name)?)),
        Expr::Element(name, index) => {
            let index = Box::new(alloc, copy_expression(alloc, index)?)?;
            Ok(Expr::Element(copy_name(alloc, name)?, index))
        }
        Expr::Binary(code, a, b) => {
            let a = Box::new(alloc, copy_expression(alloc, a)?)?;
            let b = Box::new(alloc, copy_expression(alloc, b)?)?;
            Ok(Expr::Binary(*code, a, b))
        }
        Expr::Unary(code, a) => {
            let a = Box::new(alloc, copy_expression(alloc, a)?)?;
            Ok(Expr::Unary(*code, a))
        }
        Expr::More => Ok(Expr::More),
        Expr::Take => Ok(Expr::Take),
        Expr::Iter => Ok(Expr::Iter),
    }
}

// Copies a name and the expression beside it.
fn copy_named(alloc: Global, name: &Name, e: &Expr) -> Result<(Name, Expr), NoMemory>
    ensures name { IfOk result (λ copy. copy.0 ≡ name.now) }
    ensures expression { IfOk result (λ copy. expression_of copy.1 ≡ expression_of e.now) }
{
    let name = copy_name(alloc, name)?;
    Ok((name, copy_expression(alloc, e)?))
}

fn copy_stage(alloc: Global, number: &Option<Expr>) -> Result<Option<Expr>, NoMemory>
    ensures { IfOk result (λ copy. (kind : PlainStageKind) → stage_statement kind copy ≡ stage_statement kind number.now) }
{
    match number {
        Some(e) => Ok(Some(copy_expression(alloc, e)?)),
        None => Ok(None),
    }
}

/// Returns a copy of a statement. Returns an error only if memory runs out.
#[cycle(copy)]
pub fn copy_statement(alloc: Global, s: &Stmt) -> Result<Stmt, NoMemory>
    ensures { IfOk result (λ copy. statement_of copy ≡ statement_of s.now) }
{
    match s {
        Stmt::Let(name, e) => {
            let (name, e) = copy_named(alloc, name, e)?;
            Ok(Stmt::Let(name, e))
        }
        Stmt::Assign(name, e) => {
            let (name, e) = copy_named(alloc, name, e)?;
            Ok(Stmt::Assign(name, e))
        }
        Stmt::AssignElement(name, index, e) => {
            let (name, index) = copy_named(alloc, name, index)?;
            Ok(Stmt::AssignElement(name, index, copy_expression(alloc, e)?))
        }
        Stmt::Emit(e) => Ok(Stmt::Emit(copy_expression(alloc, e)?)),
        Stmt::If(e, a, b) => {
            let e = copy_expression(alloc, e)?;
            let a = copy_block(alloc, a)?;
            Ok(Stmt::If(e, a, copy_block(alloc, b)?))
        }
        Stmt::While(e, a) => {
            let e = copy_expression(alloc, e)?;
            Ok(Stmt::While(e, copy_block(alloc, a)?))
        }
        Stmt::Wait(number) => Ok(Stmt::Wait(copy_stage(alloc, number)?)),
        Stmt::Continue(number) => Ok(Stmt::Continue(copy_stage(alloc, number)?)),
    }
}

/// Returns a copy of a block. Returns an error only if memory runs out.
#[cycle(copy)]
pub fn copy_block(alloc: Global, block: &Block) -> Result<Block, NoMemory>
    ensures { IfOk result (λ copy. statements_of copy.statements.items ≡ statements_of block.now.statements.items) }
{
    let mut statements = Vec::new(alloc);
    for s in &block.statements {
        statements.push(copy_statement(alloc, s)?)?;
    }
    Ok(Block { statements })
}

fn copy_declaration(alloc: Global, cell: &Declaration) -> Result<Declaration, NoMemory>
    ensures { IfOk result (λ copy. copy ≡ cell.now) }
{
    Ok(Declaration {
        name: copy_name(alloc, &cell.name)?,
        size: cell.size,
        value: cell.value,
    })
}

/// Returns a copy of the declared cells. Returns an error only if memory runs out.
pub fn copy_declarations(alloc: Global, cells: &Declarations) -> Result<Declarations, NoMemory>
    ensures { IfOk result (λ copy. copy ≡ cells.now) }
{
    let mut copy = Declarations::new(alloc);
    for cell in cells.as_slice() {
        copy.push(copy_declaration(alloc, cell)?)?;
    }
    Ok(copy)
}

/// Returns a copy of a program. Returns an error only if memory runs out.
pub fn copy_program(alloc: Global, program: &Program) -> Result<Program, NoMemory>
    ensures { IfOk result (λ copy. tree_of copy ≡ tree_of program.now) }
{
    let cells = copy_declarations(alloc, &program.cells)?;
    let init = copy_block(alloc, &program.init)?;
    let body = copy_block(alloc, &program.body)?;
    let last = copy_block(alloc, &program.last)?;
    let test = copy_expression(alloc, &program.test)?;
    Ok(Program {
        limits: program.limits,
        cells,
        init,
        test,
        body,
        last,
    })
}
