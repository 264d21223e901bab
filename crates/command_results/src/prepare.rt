//! Loads the files of a command that runs a program.

ghost use Rattle.std.specs.Prelude.{◌≡◌, ◌≤◌, IfOk, OnErr};
ghost use Rattle.command_results.specs.PreparedFiles.{IsPreparation};

use crate::command_result::{CommandResult, read_fault, refused};
use crate::load::{Input, load_input};
use crate::wave_loop::{Runnable, load_runnable};
use pipe_check::checked::Checked;
use pipe_io::files::Files;
use pipe_model::list::Numbers;
use pipe_model::memory::NoMemory;
use std::alloc::Global;

/// The files of a command before its program runs.
#[derive(Drop)]
pub enum Prepared {
    /// The program to run, and the numbers of the input.
    Ready(Checked, Numbers),
    /// The source or the input is refused or cannot be read.
    Decided(CommandResult),
}

/// Loads the files of a command that runs a program, the source first. With `wave`, the source must be
/// a wave loop, and the program to run is its lowered form. Returns an error only if memory runs out.
pub fn prepare<F: Files>(
    alloc: Global,
    files: &mut F,
    source: &str,
    input: &str,
    wave: bool,
) -> Result<Prepared, NoMemory>
    ensures keeps { F.holds files.new ≡ F.holds files.old }
    ensures grows { OnErr result (F.faults files.old ≤ F.faults files.new) }
    ensures prepared { IfOk result (λ p. IsPreparation (F.holds files.old) (F.faults files.old) (F.faults files.new)
        source.now input.now wave p) }
{
    let program = match load_runnable(alloc, files, source, wave)? {
        Runnable::Program(program) => program,
        Runnable::Refused(text) => return Ok(Prepared::Decided(refused(alloc, text))),
        Runnable::Failed => return Ok(Prepared::Decided(read_fault(alloc, source)?)),
    };
    match load_input(alloc, files, input) {
        Ok(Input::Accepted(numbers)) => Ok(Prepared::Ready(program, numbers)),
        Ok(Input::Refused(text)) => {
            drop(program);
            Ok(Prepared::Decided(refused(alloc, text)))
        }
        Ok(Input::Failed) => {
            drop(program);
            Ok(Prepared::Decided(read_fault(alloc, input)?))
        }
        Err(NoMemory) => {
            drop(program);
            Err(NoMemory)
        }
    }
}
