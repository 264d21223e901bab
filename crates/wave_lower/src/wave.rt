//! Lowers a wave loop, or finds the first fault that makes a program none.

ghost use Rattle.std.specs.Prelude.{◌≡◌, ◌≤◌, ℤ, List, None, Some, IfErr, IfOk, OnOk, pos};
ghost use Rattle.pipe_model.specs.Language.CheckingRules.{BreaksNoRule};
ghost use Rattle.pipe_model.specs.Language.SpellablePrograms.{IsSpellable, size_of};
ghost use Rattle.pipe_model.specs.Language.SyntaxTree.{Number as NumberOf, tree_of};
ghost use Rattle.wave_laws.specs.WaveLaws.{IsTheGrid, LARGEST_WAVE};
ghost use Rattle.wave_laws.specs.Waves.LoweredLoops.{lowered};
ghost use Rattle.wave_laws.specs.Waves.WaveFaults.{first_stage, marks_before_body, wave_fault};
ghost use Rattle.wave_laws.specs.Waves.WaveLoops.{IsWave};
ghost use Rattle.wave_lower.specs.FirstFaults.{IsFirstFault};

use crate::fault::WaveFault;
use crate::form::{begins_with_row, is_number};
use crate::lower::{lowered_body, lowered_test};
use crate::search::find_in_block;
use pipe_model::memory::NoMemory;
use pipe_model::tree::Program;
use program_copy::copy::{copy_block, copy_declarations};
use std::alloc::Global;

// Returns the number of marks before the body, or the number of the first stage statement.
fn find_stage(program: &Program) -> Result<u32, u32>
    requires test { (tree_of program.now).test ≡ NumberOf (pos 1) }
    requires small { size_of (tree_of program.now) ≤ LARGEST_WAVE }
    ensures none { OnOk result (first_stage (tree_of program.now) ≡ None) }
    ensures next { IfOk result (λ next. next ≡ marks_before_body (tree_of program.now)) }
    ensures found { IfErr result (λ mark. first_stage (tree_of program.now) ≡ Some mark) }
{
    let next = program.cells.len() as u32;
    let body = find_in_block(true, false, next, &program.init)?;
    let last = find_in_block(true, false, body, &program.body)?;
    find_in_block(true, false, last, &program.last)?;
    Ok(body)
}

// Returns an error if the program is not a wave loop: its first fault.
fn check_wave(program: &Program) -> Result<(), WaveFault>
    requires small { size_of (tree_of program.now) ≤ LARGEST_WAVE }
    ensures ok { OnOk result (wave_fault (tree_of program.now) ≡ None) }
    ensures err { IfErr result (λ fault. IsFirstFault fault (wave_fault (tree_of program.now))) }
{
    if !is_number(1, &program.test) {
        return Err(WaveFault::BadTest);
    }
    if !begins_with_row(&program.body.statements) {
        return Err(WaveFault::NoRow);
    }
    let body = match find_stage(program) {
        Ok(body) => body,
        Err(mark) => return Err(WaveFault::HasStage(mark)),
    };
    match find_in_block(false, true, body, &program.body) {
        Ok(_) => Ok(()),
        Err(mark) => Err(WaveFault::RowSet(mark)),
    }
}

// Returns the program with the lowered loop.
fn lower(alloc: Global, program: &Program) -> Result<Program, NoMemory>
    requires wave { IsWave (tree_of program.now) }
    requires obeys { BreaksNoRule (tree_of program.now) }
    ensures { IfOk result (λ p. tree_of p ≡ lowered (tree_of program.now)) }
{
    Ok(Program {
        limits: program.limits,
        cells: copy_declarations(alloc, &program.cells)?,
        init: copy_block(alloc, &program.init)?,
        test: lowered_test(alloc, program.limits.iterations)?,
        body: lowered_body(alloc, program.limits.stages, &program.body.statements[1..])?,
        last: copy_block(alloc, &program.last)?,
    })
}

/// Lowers a wave loop to a pipeline with one wait for each row. The serial elision of the result is
/// the grid of the loop, and the result breaks no rule of the checker.
///
/// # Errors
/// The first fault of the program as a wave loop, or out of memory.
pub fn lower_wave(alloc: Global, program: &Program) -> Result<Program, WaveFault>
    requires obeys { BreaksNoRule (tree_of program.now) }
    requires spellable { IsSpellable (tree_of program.now) }
    requires small { size_of (tree_of program.now) ≤ LARGEST_WAVE }
    ensures grid { IfOk result (λ p. (input : List ℤ) → IsTheGrid (tree_of p) (tree_of program.now) input) }
    ensures obeys { IfOk result (λ p. BreaksNoRule (tree_of p)) }
    ensures spellable { IfOk result (λ p. IsSpellable (tree_of p)) }
    ensures lowered { IfOk result (λ p. tree_of p ≡ lowered (tree_of program.now)) }
    ensures ok { OnOk result (wave_fault (tree_of program.now) ≡ None) }
    ensures err { IfErr result (λ fault. IsFirstFault fault (wave_fault (tree_of program.now))) }
{
    check_wave(program)?;
    Ok(lower(alloc, program)?)
}
