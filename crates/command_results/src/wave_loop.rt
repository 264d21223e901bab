//! The program that a command runs: as its source has it, or the lowered form of a wave loop.

ghost use Rattle.std.specs.Prelude.{◌≡◌, List, ℕ, IfOk, OnErr, true};
ghost use Rattle.pipe_io.specs.Faults.{CountsFault};
ghost use Rattle.pipe_model.specs.Language.CheckingRules.{BreaksNoRule};
ghost use Rattle.pipe_model.specs.Language.SpellablePrograms.{IsSpellable};
ghost use Rattle.pipe_model.specs.Language.SyntaxTree.{tree_of};
ghost use Rattle.command_results.specs.LoadedFiles.{IsAcceptedWith};
ghost use Rattle.command_results.specs.RunnablePrograms.{IsRunnableOf, IsRunnableResult, is_runnable_fault};

use crate::load::{Source, load_source};
use crate::refusal::wave_line;
use pipe_check::checked::Checked;
use pipe_check::program::check;
use pipe_io::files::Files;
use pipe_model::list::{Bytes, Numbers};
use pipe_model::memory::NoMemory;
use pipe_model::tree::Program;
use std::alloc::Global;
use wave_lower::wave::lower_wave;

/// The result of loading a source that is to be run.
#[derive(Drop)]
pub enum Runnable {
    /// The program to run.
    Program(Checked),
    /// The line that refuses the source.
    Refused(Bytes),
    /// A read failed.
    Failed,
}

// Checks a lowered program, which breaks no rule.
fn check_lowered(alloc: Global, program: Program) -> Result<Checked, NoMemory>
    requires obeys { BreaksNoRule (tree_of program) }
    requires spellable { IsSpellable (tree_of program) }
    ensures { IfOk result (λ checked. checked ≡ program) }
{
    match check(alloc, program) {
        Ok(checked) => Ok(checked),
        Err(_) => Err(NoMemory),
    }
}

// The lowered form of a wave loop, or the line of the first fault that makes the program none.
fn lowered_wave(alloc: Global, program: &Checked, places: &Numbers) -> Result<Runnable, NoMemory>
    requires { (source : List ℕ) × IsAcceptedWith source (tree_of program.now) places.now }
    ensures { IfOk result (λ r. (source : List ℕ) → IsAcceptedWith source (tree_of program.now) places.now
        → IsRunnableOf source (tree_of program.now) true r) }
{
    match lower_wave(alloc, program.program()) {
        Ok(lowered) => Ok(Runnable::Program(check_lowered(alloc, lowered)?)),
        Err(fault) => Ok(Runnable::Refused(wave_line(alloc, fault, places.as_slice())?)),
    }
}

// The program to run of an accepted one.
fn program_to_run(
    alloc: Global,
    program: Checked,
    places: &Numbers,
    wave: bool,
) -> Result<Runnable, NoMemory>
    requires { (source : List ℕ) × IsAcceptedWith source (tree_of program) places.now }
    ensures { IfOk result (λ r. (source : List ℕ) → IsAcceptedWith source (tree_of program) places.now
        → IsRunnableOf source (tree_of program) wave r) }
{
    if wave {
        return lowered_wave(alloc, &program, places);
    }
    Ok(Runnable::Program(program))
}

/// Loads the program of a source; with `wave`, its lowered form as a wave loop. Returns an error only
/// if memory runs out; a file that is missing, is refused or cannot be read is an `Ok` result.
pub fn load_runnable<F: Files>(
    alloc: Global,
    files: &mut F,
    name: &str,
    wave: bool,
) -> Result<Runnable, NoMemory>
    ensures keeps { F.holds files.new ≡ F.holds files.old }
    ensures cause { IfOk result (λ r. CountsFault (is_runnable_fault r) (F.faults files.old) (F.faults files.new)) }
    ensures memory { OnErr result (F.faults files.new ≡ F.faults files.old) }
    ensures outcome { IfOk result (IsRunnableResult (F.holds files.old) name.now wave) }
{
    match load_source(alloc, files, name)? {
        Source::Accepted(program, places) => program_to_run(alloc, program, &places, wave),
        Source::Refused(line) => Ok(Runnable::Refused(line)),
        Source::Failed => Ok(Runnable::Failed),
    }
}
