//! The source and the input of a command.

ghost use Rattle.std.specs.Prelude.{◌≡◌, IfOk, OnErr};
ghost use Rattle.pipe_io.specs.Faults.{CountsFault};
ghost use Rattle.command_results.specs.LoadedFiles.{is_source_fault, IsLoadOf, IsSourceResult, is_input_fault, IsReadOf, IsInputResult};

use crate::refusal::{check_line, input_line, lexical_line, syntax_line};
use crate::text::named_line;
use pipe_check::checked::Checked;
use pipe_check::program::check;
use pipe_io::bounds::LONGEST_INPUT;
use pipe_io::files::Files;
use pipe_io::input_fault::InputFault;
use pipe_io::numbers::numbers;
use pipe_io::whole::{Whole, read_whole};
use pipe_lexer::scan::tokens;
use pipe_model::bounds::LONGEST_SOURCE;
use pipe_model::list::{Bytes, Numbers};
use pipe_model::memory::NoMemory;
use pipe_parser::parse::{Parsed, parse};
use std::alloc::Global;

/// How the line of a missing file begins.
pub const MISSING: &str = "refused missing ";

/// The result of loading a source.
#[derive(Drop)]
pub enum Source {
    /// The program of an accepted source, and the offsets of its marks.
    Accepted(Checked, Numbers),
    /// The line that refuses the source.
    Refused(Bytes),
    /// A read failed.
    Failed,
}

/// Loads the program of a source. Returns an error only if memory runs out; a file that is missing,
/// is refused or cannot be read is an `Ok` result.
pub fn load_source<F: Files>(alloc: Global, files: &mut F, name: &str) -> Result<Source, NoMemory>
    ensures keeps { F.holds files.new ≡ F.holds files.old }
    ensures cause { IfOk result (λ source. CountsFault (is_source_fault source) (F.faults files.old) (F.faults files.new)) }
    ensures memory { OnErr result (F.faults files.new ≡ F.faults files.old) }
    ensures outcome { IfOk result (λ source. IsSourceResult (F.holds files.old) name.now source) }
{
    match read_whole(alloc, files, name, LONGEST_SOURCE)? {
        Whole::Missing => Ok(Source::Refused(named_line(alloc, MISSING, name)?)),
        Whole::Failed => Ok(Source::Failed),
        // The lexer refuses the bytes that were read, since they are too long.
        Whole::TooLong(prefix) => source_of(alloc, prefix.as_slice()),
        Whole::Bytes(bytes) => source_of(alloc, bytes.as_slice()),
    }
}

/// Returns the program of these bytes, or the line that refuses them: the first fault of the lexer,
/// the parser or the checker. Returns an error only if memory runs out.
pub fn source_of(alloc: Global, source: &[u8]) -> Result<Source, NoMemory>
    ensures { IfOk result (λ outcome. IsLoadOf source.now outcome) }
{
    let tokens = match tokens(alloc, source) {
        Ok(tokens) => tokens,
        Err(fault) => return Ok(Source::Refused(lexical_line(alloc, fault)?)),
    };
    let Parsed { program, places } = match parse(alloc, source, &tokens) {
        Ok(parsed) => parsed,
        Err(fault) => return Ok(Source::Refused(syntax_line(alloc, fault)?)),
    };
    match check(alloc, program) {
        Ok(program) => Ok(Source::Accepted(program, places)),
        Err(fault) => Ok(Source::Refused(check_line(alloc, fault, places.as_slice())?)),
    }
}

/// The result of loading an input.
#[derive(Drop)]
pub enum Input {
    /// The numbers of the input.
    Accepted(Numbers),
    /// The line that refuses the input.
    Refused(Bytes),
    /// A read failed.
    Failed,
}

/// Loads the numbers of an input. Returns an error only if memory runs out; a file that is missing,
/// is refused or cannot be read is an `Ok` result.
pub fn load_input<F: Files>(alloc: Global, files: &mut F, name: &str) -> Result<Input, NoMemory>
    ensures keeps { F.holds files.new ≡ F.holds files.old }
    ensures cause { IfOk result (λ input. CountsFault (is_input_fault input) (F.faults files.old) (F.faults files.new)) }
    ensures memory { OnErr result (F.faults files.new ≡ F.faults files.old) }
    ensures outcome { IfOk result (λ input. IsInputResult (F.holds files.old) name.now input) }
{
    match read_whole(alloc, files, name, LONGEST_INPUT)? {
        Whole::Missing => Ok(Input::Refused(named_line(alloc, MISSING, name)?)),
        Whole::Failed => Ok(Input::Failed),
        Whole::TooLong(_) => Ok(Input::Refused(input_line(alloc, InputFault::TooLong)?)),
        Whole::Bytes(bytes) => input_of(alloc, bytes.as_slice()),
    }
}

/// Returns the numbers of these bytes, or the line that refuses them. Returns an error only if memory
/// runs out.
pub fn input_of(alloc: Global, bytes: &[u8]) -> Result<Input, NoMemory>
    ensures { IfOk result (λ outcome. IsReadOf bytes.now outcome) }
{
    match numbers(alloc, bytes) {
        Ok(numbers) => Ok(Input::Accepted(numbers)),
        Err(fault) => Ok(Input::Refused(input_line(alloc, fault)?)),
    }
}
