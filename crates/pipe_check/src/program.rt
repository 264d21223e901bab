//! The rules of a whole program.

ghost use Rattle.std.specs.Prelude.{◌≡◌, ◌≤◌, None, IfErr, IfOk, OnOk};
ghost use Rattle.pipe_check.specs.Passing.{Fits, PassesMarks, IsFirstFaultOf};
ghost use Rattle.pipe_model.specs.declared.bounds.TheConstants as bounds;
ghost use Rattle.pipe_model.specs.Language.CheckingRules.{cell_total, fault_of, first_fault};
ghost use Rattle.pipe_model.specs.Language.Marks.{marks_of, marks_of_expression, marks_of_statements, opening};
ghost use Rattle.pipe_model.specs.Language.SpellablePrograms.{IsSpellable};
ghost use Rattle.pipe_model.specs.Language.SyntaxTree.{expression_of, statements_of, tree_of};
ghost use Rattle.pipe_model.specs.declared.region.Region.TheVariants as regions;

use crate::cell_table::CellTable;
use crate::checked::Checked;
use crate::expression::check_expression;
use crate::fault::CheckFault;
use crate::limits::first_limit_out;
use crate::scope::Scope;
use crate::statement::check_block;
use pipe_model::region::Region;
use pipe_model::tree::{Block, Expr, Program};
use std::alloc::Global;

// The cells `input` and `output`, which no program declares.
const OWN_CELLS: u32 = 2;

// Checks the marks of a block that is a region of its own.
fn check_region(
    alloc: Global,
    cells: &CellTable,
    region: Region,
    next: u32,
    block: &Block,
) -> Result<u32, CheckFault>
    requires { Fits next (marks_of_statements (opening region cells.now) (statements_of block.now.statements.items)) }
    ensures { PassesMarks result next (marks_of_statements (opening region cells.now) (statements_of block.now.statements.items)) }
{
    check_block(
        alloc,
        &mut Scope::opening(alloc, region, cells),
        next,
        block,
    )
}

// Checks the marks of the loop's test.
fn check_test(alloc: Global, cells: &CellTable, next: u32, test: &Expr) -> Result<u32, CheckFault>
    requires { Fits next (marks_of_expression (opening regions.Test cells.now) (expression_of test.now)) }
    ensures { PassesMarks result next (marks_of_expression (opening regions.Test cells.now) (expression_of test.now)) }
{
    check_expression(&Scope::opening(alloc, Region::Test, cells), next, test)
}

// Checks the marks of a program. Returns the number of cells that it declares, or the first fault.
fn check_marks(alloc: Global, program: &Program) -> Result<u32, CheckFault>
    requires { IsSpellable (tree_of program.now) }
    ensures total { IfOk result (λ total. total ≡ cell_total program.now.cells) }
    ensures bounded { IfOk result (λ total. total ≤ bounds.MOST_CELLS) }
    ensures ok { OnOk result (first_fault 0 (marks_of (tree_of program.now)) ≡ None) }
    ensures err { IfErr result (λ fault. IsFirstFaultOf fault (first_fault 0 (marks_of (tree_of program.now)))) }
{
    let cells = CellTable::of(alloc, program.cells.as_slice())?;
    let next = cells.len() as u32;
    let next = check_region(alloc, &cells, Region::Init, next, &program.init)?;
    let next = check_test(alloc, &cells, next, &program.test)?;
    let next = check_region(alloc, &cells, Region::Body, next, &program.body)?;
    check_region(alloc, &cells, Region::Last, next, &program.last)?;
    Ok(cells.total())
}

/// Returns the program if it breaks no rule, or else its first fault: of its limits, in their
/// order, and then of its marks, in the order of the text; at one mark the earlier rule counts. The
/// only other error is that memory runs out. The program must be spellable (`IsSpellable`), as is each
/// that `parse` returns.
pub fn check(alloc: Global, program: Program) -> Result<Checked, CheckFault>
    requires spellable { IsSpellable (tree_of program) }
    ensures program { IfOk result (λ checked. checked ≡ program) }
    ensures ok { OnOk result (fault_of (tree_of program) ≡ None) }
    ensures err { IfErr result (λ fault. IsFirstFaultOf fault (fault_of (tree_of program))) }
{
    if let Some(which) = first_limit_out(&program.limits) {
        return Err(CheckFault::LimitOut(which));
    }
    let total = check_marks(alloc, &program)?;
    Ok(Checked::new(program, total + OWN_CELLS))
}
