//! The code of expressions.

ghost use Rattle.std.specs.Prelude.{◌≡◌, ◌≤◌, ◌<◌, ◌+◌, ◌++◌, ◌∷◌, [], OnOk, length};
ghost use Rattle.pipe_model.specs.Language.Programs.{range_of};
ghost use Rattle.pipe_model.specs.Language.SyntaxTree.{Element, And, Or, Binary, expression_of};
ghost use Rattle.stage_code.specs.CodeOfTrees.{element_code, expression_code, name_code};
ghost use Rattle.stage_code.specs.Fitting.{CodeFits, is_short, test_code};
ghost use Rattle.stage_code.specs.Slots.{slot_of};
ghost use Rattle.stage_code.specs.declared.code_bounds.TheConstants as code_bounds;

use crate::cell_ranges::CellRanges;
use crate::instr::Instr;
use crate::locals::Locals;
use pipe_model::memory::NoMemory;
use pipe_model::name::Name;
use pipe_model::operator_codes::{AND, OR};
use pipe_model::tree::Expr;

// Appends an instruction.
pub fn put(code: &mut Vec<Instr>, instr: Instr) -> Result<(), NoMemory>
    ensures { OnOk result (code.new.items ≡ code.old.items ++ instr ∷ []) }
{
    code.push(instr)?;
    Ok(())
}

// Returns the index after the code.
pub fn place(code: &Vec<Instr>) -> u32
    requires { length code.now.items ≤ code_bounds.LONGEST_CODE }
    ensures { result ≡ length code.now.items }
{
    code.len() as u32
}

// Returns the code of a used name without an index.
fn name_code(cells: &CellRanges, locals: &Locals, name: &Name) -> Instr
    ensures { result ≡ name_code (slot_of locals.now name.now) (range_of 2 cells.now name.now) }
{
    if let Some(slot) = locals.slot_of(name) {
        return Instr::Local(slot);
    }
    match cells.range_of(name) {
        Some(range) => Instr::Read(range.first),
        None => Instr::Push(0),
    }
}

// Returns the code of a used name with an index, which comes after the code of the index.
fn element_code(cells: &CellRanges, name: &Name) -> Instr
    ensures { result ≡ element_code (range_of 2 cells.now name.now) }
{
    match cells.range_of(name) {
        Some(range) => Instr::ReadAt(range.first, range.size),
        None => Instr::End,
    }
}

// Returns whether the operator is `||` or `&&`, which may leave their right side unevaluated.
pub fn is_short(op: u8) -> bool
    ensures { result ≡ is_short op }
{
    op == OR || op == AND
}

// Returns the test of such an operator, which may jump to the target.
fn test_code(op: u8, to: u32) -> Instr
    ensures { result ≡ test_code op to }
{
    if op == OR {
        Instr::OrTest(to)
    } else {
        Instr::AndTest(to)
    }
}

// Appends the code of an expression.
pub fn put_expression(
    code: &mut Vec<Instr>,
    cells: &CellRanges,
    locals: &Locals,
    e: &Expr,
) -> Result<(), NoMemory>
    requires { CodeFits code.old.items (expression_code (range_of 2 cells.now) locals.now (length code.old.items) (expression_of e.now)) }
    ensures { OnOk result (code.new.items
        ≡ code.old.items ++ expression_code (range_of 2 cells.now) locals.now (length code.old.items) (expression_of e.now)) }
{
    match e {
        Expr::Number(n) => put(code, Instr::Push(*n)),
        Expr::Name(name) => put(code, name_code(cells, locals, name)),
        Expr::Element(name, i) => {
            put_expression(code, cells, locals, i)?;
            put(code, element_code(cells, name))
        }
        Expr::Binary(op, a, b) => {
            put_expression(code, cells, locals, a)?;
            if !is_short(*op) {
                put_expression(code, cells, locals, b)?;
                return put(code, Instr::Binary(*op));
            }
            let test = code.len();
            put(code, test_code(*op, 0))?;
            put_expression(code, cells, locals, b)?;
            put(code, Instr::Truth)?;
            code[test] = test_code(*op, place(code));
            Ok(())
        }
        Expr::Unary(op, a) => {
            put_expression(code, cells, locals, a)?;
            put(code, Instr::Unary(*op))
        }
        Expr::More => put(code, Instr::More),
        Expr::Take => put(code, Instr::Take),
        Expr::Iter => put(code, Instr::Iter),
    }
}
