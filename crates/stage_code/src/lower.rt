//! From programs to flat code.

ghost use Rattle.std.specs.Prelude.{◌≡◌, ◌≤◌, ◌++◌, [], IfOk, None, OnOk, length};
ghost use Rattle.pipe_model.specs.Language.CheckingRules.{fault_of};
ghost use Rattle.pipe_model.specs.Language.Programs.{range_of};
ghost use Rattle.pipe_model.specs.Language.SpellablePrograms.{IsSpellable};
ghost use Rattle.pipe_model.specs.Language.SyntaxTree.{expression_of, statements_of, tree_of};
ghost use Rattle.stage_code.specs.CodeOfTrees.{flat_code, iteration_code, part_code};
ghost use Rattle.stage_code.specs.Fitting.{CodeFits};
ghost use Rattle.stage_code.specs.Heights.{greatest_height};
ghost use Rattle.stage_code.specs.Meaning.{RunsProgram};
ghost use Rattle.stage_code.specs.Slots.{HaveSlots};
ghost use Rattle.stage_code.specs.declared.code_bounds.TheConstants as code_bounds;

use crate::cell_ranges::CellRanges;
use crate::code::Code;
use crate::expression::{place, put, put_expression};
use crate::height::{greater, height_of, height_of_block};
use crate::instr::Instr;
use crate::locals::Locals;
use crate::statement::put_block;
use pipe_check::checked::Checked;
use pipe_model::memory::NoMemory;
use pipe_model::tree::{Block, Expr, Program};
use std::alloc::Global;

// Appends the code of `init` or `final`.
fn put_part(
    alloc: Global,
    code: &mut Vec<Instr>,
    cells: &CellRanges,
    block: &Block,
) -> Result<(), NoMemory>
    requires fits { CodeFits code.old.items (part_code (range_of 2 cells.now) (length code.old.items)
        (statements_of block.now.statements.items)) }
    requires slots { HaveSlots [] (statements_of block.now.statements.items) }
    ensures { OnOk result (code.new.items
        ≡ code.old.items ++ part_code (range_of 2 cells.now) (length code.old.items) (statements_of block.now.statements.items)) }
{
    put_block(alloc, code, cells, &mut Locals::new(alloc), block)?;
    put(code, Instr::End)
}

// Appends the code of an iteration.
fn put_iteration(
    alloc: Global,
    code: &mut Vec<Instr>,
    cells: &CellRanges,
    test: &Expr,
    body: &Block,
) -> Result<(), NoMemory>
    requires fits { CodeFits code.old.items (iteration_code (range_of 2 cells.now) (length code.old.items) (expression_of test.now)
        (statements_of body.now.statements.items)) }
    requires slots { HaveSlots [] (statements_of body.now.statements.items) }
    ensures { OnOk result (code.new.items
        ≡ code.old.items ++ iteration_code (range_of 2 cells.now) (length code.old.items) (expression_of test.now)
        (statements_of body.now.statements.items)) }
{
    let mut locals = Locals::new(alloc);
    put_expression(code, cells, &locals, test)?;
    put(code, Instr::LoopTest)?;
    put_block(alloc, code, cells, &mut locals, body)?;
    put(code, Instr::End)
}

// Returns how high the stack grows while any part of the program runs.
fn greatest_height(program: &Program) -> u32
    requires { greatest_height (tree_of program.now) ≤ code_bounds.HIGHEST_STACK }
    ensures { result ≡ greatest_height (tree_of program.now) }
{
    let loops = greater(
        height_of(&program.test),
        greater(
            height_of_block(&program.body),
            height_of_block(&program.last),
        ),
    );
    greater(height_of_block(&program.init), loops)
}

// Returns the flat code of a program that breaks no rule.
fn lower_program(alloc: Global, program: &Program) -> Result<Code, NoMemory>
    requires spellable { IsSpellable (tree_of program.now) }
    requires obeys { fault_of (tree_of program.now) ≡ None }
    ensures { IfOk result (λ code. code ≡ flat_code (tree_of program.now)) }
{
    let cells = CellRanges::of(alloc, program.cells.as_slice())?;
    let mut instrs = Vec::new(alloc);
    put_part(alloc, &mut instrs, &cells, &program.init)?;
    let pipe = place(&instrs);
    put_iteration(alloc, &mut instrs, &cells, &program.test, &program.body)?;
    let last = place(&instrs);
    put_part(alloc, &mut instrs, &cells, &program.last)?;
    let depth = greatest_height(program);
    Code::new(alloc, instrs, 0, pipe, last, depth, program.limits)
}

/// Returns the flat code of an accepted program: from the start of each part it does what the
/// program does, step for step, with a stack of `depth()` numbers and a slot for each of the 64
/// locals.
///
/// # Errors
/// Out of memory.
pub fn lower(alloc: Global, checked: &Checked) -> Result<Code, NoMemory>
    ensures runs { IfOk result (λ code. RunsProgram (tree_of checked.now) code) }
    ensures depth { IfOk result (λ code. code.depth ≡ greatest_height (tree_of checked.now)) }
    ensures limits { IfOk result (λ code. code.limits ≡ checked.now.limits) }
{
    lower_program(alloc, checked.program())
}
