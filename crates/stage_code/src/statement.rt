//! The code of statements.

ghost use Rattle.std.specs.Prelude.{◌≡◌, ◌≤◌, ◌<◌, ◌+◌, ◌++◌, ◌∷◌, [], OnOk, length};
ghost use Rattle.pipe_model.specs.Language.Programs.{range_of};
ghost use Rattle.pipe_model.specs.Language.SyntaxTree.{Assign, AssignElement, Emit, If, Let, While};
ghost use Rattle.pipe_model.specs.Language.SyntaxTree.{expression_of, stage_statement, statement_of, statements_of};
ghost use Rattle.stage_code.specs.CodeOfTrees.{assign_code, assign_element_code, next_stage_code, stage_code, statement_code};
ghost use Rattle.stage_code.specs.CodeOfTrees.{statements_code};
ghost use Rattle.stage_code.specs.Fitting.{CodeFits};
ghost use Rattle.pipe_model.specs.declared.bounds.TheConstants.{MOST_LOCALS};
ghost use Rattle.stage_code.specs.Slots.{HasSlots, HaveSlots, locals_after, slot_of};

use crate::cell_ranges::CellRanges;
use crate::expression::{place, put, put_expression};
use crate::instr::Instr;
use crate::locals::Locals;
use pipe_model::memory::NoMemory;
use pipe_model::name::Name;
use pipe_model::tree::{Block, Expr, StageKind, Stmt};
use std::alloc::Global;

// Returns the code of an assignment to a local or a plain cell, after the code of the value.
fn assign_code(cells: &CellRanges, locals: &Locals, name: &Name) -> Instr
    ensures { result ≡ assign_code (slot_of locals.now name.now) (range_of 2 cells.now name.now) }
{
    if let Some(slot) = locals.slot_of(name) {
        return Instr::SetLocal(slot);
    }
    match cells.range_of(name) {
        Some(range) => Instr::Write(range.first),
        None => Instr::End,
    }
}

// Returns the code of an assignment to an element, after the code of the index and of the value.
fn assign_element_code(cells: &CellRanges, name: &Name) -> Instr
    ensures { result ≡ assign_element_code (range_of 2 cells.now name.now) }
{
    match cells.range_of(name) {
        Some(range) => Instr::WriteAt(range.first, range.size),
        None => Instr::End,
    }
}

// Appends the code of a `let`. Its local is then in scope.
fn put_let(
    alloc: Global,
    code: &mut Vec<Instr>,
    cells: &CellRanges,
    locals: &mut Locals,
    name: &Name,
    e: &Expr,
) -> Result<(), NoMemory>
    requires fits { CodeFits code.old.items (statement_code (range_of 2 cells.now) locals.old (length code.old.items)
        (Let name.now (expression_of e.now))) }
    requires room { length locals.old < MOST_LOCALS }
    ensures code { OnOk result (code.new.items
        ≡ code.old.items ++ statement_code (range_of 2 cells.now) locals.old (length code.old.items) (Let name.now (expression_of e.now))) }
    ensures after { OnOk result (locals.new ≡ locals.old ++ name.now ∷ []) }
{
    put_expression(code, cells, locals, e)?;
    put(code, Instr::SetLocal(locals.len()))?;
    locals.declare(alloc, name)
}

// Appends the code of an assignment to a local or a plain cell.
fn put_assign(
    code: &mut Vec<Instr>,
    cells: &CellRanges,
    locals: &Locals,
    name: &Name,
    e: &Expr,
) -> Result<(), NoMemory>
    requires { CodeFits code.old.items (statement_code (range_of 2 cells.now) locals.now (length code.old.items)
        (Assign name.now (expression_of e.now))) }
    ensures { OnOk result (code.new.items
        ≡ code.old.items ++ statement_code (range_of 2 cells.now) locals.now (length code.old.items)
        (Assign name.now (expression_of e.now))) }
{
    put_expression(code, cells, locals, e)?;
    put(code, assign_code(cells, locals, name))
}

// Appends the code of an assignment to an element of an array.
fn put_assign_element(
    code: &mut Vec<Instr>,
    cells: &CellRanges,
    locals: &Locals,
    name: &Name,
    index: &Expr,
    e: &Expr,
) -> Result<(), NoMemory>
    requires { CodeFits code.old.items (statement_code (range_of 2 cells.now) locals.now (length code.old.items)
        (AssignElement name.now (expression_of index.now) (expression_of e.now))) }
    ensures { OnOk result (code.new.items
        ≡ code.old.items ++ statement_code (range_of 2 cells.now) locals.now (length code.old.items)
        (AssignElement name.now (expression_of index.now) (expression_of e.now))) }
{
    put_expression(code, cells, locals, index)?;
    put_expression(code, cells, locals, e)?;
    put(code, assign_element_code(cells, name))
}

// Appends the code of an `emit`.
fn put_emit(
    code: &mut Vec<Instr>,
    cells: &CellRanges,
    locals: &Locals,
    e: &Expr,
) -> Result<(), NoMemory>
    requires { CodeFits code.old.items (statement_code (range_of 2 cells.now) locals.now (length code.old.items)
        (Emit (expression_of e.now))) }
    ensures { OnOk result (code.new.items
        ≡ code.old.items ++ statement_code (range_of 2 cells.now) locals.now (length code.old.items) (Emit (expression_of e.now))) }
{
    put_expression(code, cells, locals, e)?;
    put(code, Instr::Emit)
}

// Returns the code of a stage statement with a number, after the code of the number.
fn stage_code(kind: StageKind) -> Instr
    ensures { result ≡ stage_code kind }
{
    match kind {
        StageKind::Wait => Instr::Wait,
        StageKind::Continue => Instr::Continue,
    }
}

// Returns the code of a stage statement without a number.
fn next_stage_code(kind: StageKind) -> Instr
    ensures { result ≡ next_stage_code kind }
{
    match kind {
        StageKind::Wait => Instr::WaitNext,
        StageKind::Continue => Instr::ContinueNext,
    }
}

// Appends the code of a stage statement, with or without a number.
fn put_stage(
    code: &mut Vec<Instr>,
    cells: &CellRanges,
    locals: &Locals,
    kind: StageKind,
    number: &Option<Expr>,
) -> Result<(), NoMemory>
    requires { CodeFits code.old.items (statement_code (range_of 2 cells.now) locals.now (length code.old.items)
        (stage_statement kind number.now)) }
    ensures { OnOk result (code.new.items
        ≡ code.old.items ++ statement_code (range_of 2 cells.now) locals.now (length code.old.items) (stage_statement kind number.now)) }
{
    match number {
        Some(e) => {
            put_expression(code, cells, locals, e)?;
            put(code, stage_code(kind))
        }
        None => put(code, next_stage_code(kind)),
    }
}

// Appends the code of an `if`.
#[cycle(walk)]
fn put_if(
    alloc: Global,
    code: &mut Vec<Instr>,
    cells: &CellRanges,
    locals: &mut Locals,
    e: &Expr,
    a: &Block,
    b: &Block,
) -> Result<(), NoMemory>
    requires fits { CodeFits code.old.items (statement_code (range_of 2 cells.now) locals.old (length code.old.items)
        (If (expression_of e.now) (statements_of a.now.statements.items) (statements_of b.now.statements.items))) }
    requires first { HaveSlots locals.old (statements_of a.now.statements.items) }
    requires second { HaveSlots locals.old (statements_of b.now.statements.items) }
    ensures code { OnOk result (code.new.items
        ≡ code.old.items ++ statement_code (range_of 2 cells.now) locals.old (length code.old.items)
        (If (expression_of e.now) (statements_of a.now.statements.items) (statements_of b.now.statements.items))) }
    ensures after { OnOk result (locals.new ≡ locals.old) }
{
    put_expression(code, cells, locals, e)?;
    let test = code.len();
    put(code, Instr::Branch(0))?;
    put_block(alloc, code, cells, locals, a)?;
    let end = code.len();
    put(code, Instr::Jump(0))?;
    code[test] = Instr::Branch(place(code));
    put_block(alloc, code, cells, locals, b)?;
    code[end] = Instr::Jump(place(code));
    Ok(())
}

// Appends the code of a `while`.
#[cycle(walk)]
fn put_while(
    alloc: Global,
    code: &mut Vec<Instr>,
    cells: &CellRanges,
    locals: &mut Locals,
    e: &Expr,
    body: &Block,
) -> Result<(), NoMemory>
    requires fits { CodeFits code.old.items (statement_code (range_of 2 cells.now) locals.old (length code.old.items)
        (While (expression_of e.now) (statements_of body.now.statements.items))) }
    requires slots { HaveSlots locals.old (statements_of body.now.statements.items) }
    ensures code { OnOk result (code.new.items
        ≡ code.old.items ++ statement_code (range_of 2 cells.now) locals.old (length code.old.items)
        (While (expression_of e.now) (statements_of body.now.statements.items))) }
    ensures after { OnOk result (locals.new ≡ locals.old) }
{
    let start = place(code);
    put_expression(code, cells, locals, e)?;
    let test = code.len();
    put(code, Instr::Branch(0))?;
    put_block(alloc, code, cells, locals, body)?;
    put(code, Instr::Jump(start))?;
    code[test] = Instr::Branch(place(code));
    Ok(())
}

// Appends the code of a statement. Its local, if it is a `let`, is then in scope.
#[cycle(walk)]
fn put_statement(
    alloc: Global,
    code: &mut Vec<Instr>,
    cells: &CellRanges,
    locals: &mut Locals,
    s: &Stmt,
) -> Result<(), NoMemory>
    requires fits { CodeFits code.old.items (statement_code (range_of 2 cells.now) locals.old (length code.old.items)
        (statement_of s.now)) }
    requires slots { HasSlots locals.old (statement_of s.now) }
    ensures code { OnOk result (code.new.items
        ≡ code.old.items ++ statement_code (range_of 2 cells.now) locals.old (length code.old.items) (statement_of s.now)) }
    ensures after { OnOk result (locals.new ≡ locals_after locals.old (statement_of s.now)) }
{
    match s {
        Stmt::Let(name, e) => put_let(alloc, code, cells, locals, name, e),
        Stmt::Assign(name, e) => put_assign(code, cells, locals, name, e),
        Stmt::AssignElement(name, i, e) => put_assign_element(code, cells, locals, name, i, e),
        Stmt::Emit(e) => put_emit(code, cells, locals, e),
        Stmt::If(e, a, b) => put_if(alloc, code, cells, locals, e, a, b),
        Stmt::While(e, a) => put_while(alloc, code, cells, locals, e, a),
        Stmt::Wait(number) => put_stage(code, cells, locals, StageKind::Wait, number),
        Stmt::Continue(number) => put_stage(code, cells, locals, StageKind::Continue, number),
    }
}

// Appends the code of a block. The locals in scope are the same as before.
#[cycle(walk)]
pub fn put_block(
    alloc: Global,
    code: &mut Vec<Instr>,
    cells: &CellRanges,
    locals: &mut Locals,
    block: &Block,
) -> Result<(), NoMemory>
    requires fits { CodeFits code.old.items (statements_code (range_of 2 cells.now) locals.old (length code.old.items)
        (statements_of block.now.statements.items)) }
    requires slots { HaveSlots locals.old (statements_of block.now.statements.items) }
    ensures code { OnOk result (code.new.items
        ≡ code.old.items ++ statements_code (range_of 2 cells.now) locals.old (length code.old.items)
        (statements_of block.now.statements.items)) }
    ensures after { OnOk result (locals.new ≡ locals.old) }
{
    let visible = locals.len();
    for s in &block.statements {
        put_statement(alloc, code, cells, locals, s)?;
    }
    locals.leave(visible);
    Ok(())
}
