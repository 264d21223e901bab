//! The results of commands: a program that is run, played by a schedule, or run serially, its canonical text, the summary of
//! a generated one, a saved run log that is checked, a wave loop, work and span.

ghost use Rattle.std.specs.Prelude.{◌≡◌, ℕ, ◌≤◌, [], Option, None, Some, IfOk, OnErr, true};
ghost use Rattle.pipe_model.specs.Language.CanonicalText.{program_text};
ghost use Rattle.pipe_model.specs.Language.CheckingRules.{BreaksNoRule};
ghost use Rattle.pipe_model.specs.Language.SyntaxTree.{tree_of};
ghost use Rattle.pipe_model.specs.declared.exit_status.TheConstants as statuses;
ghost use Rattle.command_results.specs.PrintedResults.{IsCallResult};
ghost use Rattle.command_results.specs.RunResults.{IsPlayResult, IsPrintedRun, IsRunResult};
ghost use Rattle.command_results.specs.SerialResults.{ElisionResult};
ghost use Rattle.cilkp_words.specs.CommandRanges.{IsInRange};
ghost use Rattle.cilkp_words.specs.Commands.{Bench, CheckRecord, Format, Play, Run, Serial, Span, Wave, command_data};
ghost use Rattle.cilkp_words.specs.declared.ranges.TheConstants as ranges;
ghost use Rattle.pipe_gen.specs.declared.choices.TheConstants as seeds;
ghost use Rattle.pipe_io.specs.Reads.{Content};
ghost use Rattle.cilkp_words.specs.CommandWords.{command_of, words_of};

use crate::bench::bench;
use crate::command_result::{CommandResult, read_fault, refused};
use crate::load::{Source, load_source};
use crate::prepare::{Prepared, prepare};
use crate::program_play::play_program;
use crate::program_run::{FinishedRun, printed_run, recorded, run_elision, run_program};
use crate::saved_run::check_saved;
use crate::text::line;
use crate::work_and_span::weighed_result;
use cilkp_words::commands::Command;
use cilkp_words::words::read_words;
use pipe_check::checked::Checked;
use pipe_format::program::format;
use pipe_io::files::Files;
use pipe_model::exit_status::FINISHED;
use pipe_model::list::Numbers;
use pipe_model::memory::NoMemory;
use pipe_model::report::Reports;
use pipe_model::tree::Program;
use pipe_worker::gate::Gate;
use std::alloc::Global;
use std::sync::Wait;
use std::thread::Threads;

// The status, text, log and reports of a finished run, or of a play.
fn finished_result(
    alloc: Global,
    checked: &Checked,
    run: FinishedRun,
    with_log: bool,
) -> Result<CommandResult, NoMemory>
    ensures { IfOk result (IsPrintedRun checked.now.cells with_log run) }
{
    let (status, text) = printed_run(alloc, checked, &run.output, run.trap, &run.reports)?;
    Ok(CommandResult {
        status,
        text: recorded(alloc, checked, with_log, &run.run_log, text)?,
        run_log: Some(run.run_log),
        reports: run.reports,
    })
}

// The status, text, log and reports of the program's run.
fn run_result<R: Threads + Wait + Sync, G: Gate + Sync>(
    rt: &R,
    alloc: Global,
    checked: &Checked,
    input: &Numbers,
    workers: u32,
    throttle: u32,
    with_log: bool,
    gate: &G,
) -> Result<CommandResult, NoMemory>
    requires accepted { BreaksNoRule (tree_of checked.now) }
    requires workers { 1 ≤ workers }
    requires throttle { (1 ≤ throttle) × (throttle ≤ ranges.MOST_THROTTLE) }
    ensures { IfOk result (IsRunResult (tree_of checked.now) input.now throttle with_log) }
{
    let run = run_program(rt, alloc, checked, input, workers, throttle, gate)?;
    finished_result(alloc, checked, run, with_log)
}

// The status, text, log and reports of a play of the program.
fn play_result(
    alloc: Global,
    checked: &Checked,
    input: &Numbers,
    workers: u32,
    throttle: u32,
    seed: u32,
    with_log: bool,
) -> Result<CommandResult, NoMemory>
    requires accepted { BreaksNoRule (tree_of checked.now) }
    requires workers { 1 ≤ workers }
    requires throttle { 1 ≤ throttle }
    requires seed { seed ≤ seeds.MOST_SEED }
    ensures { IfOk result (IsPlayResult (tree_of checked.now) input.now workers throttle seed with_log) }
{
    let run = play_program(alloc, checked, input, workers, throttle, seed)?;
    finished_result(alloc, checked, run, with_log)
}

// The status, text and reports of the program's serial elision.
fn elision_result(
    alloc: Global,
    checked: &Checked,
    input: &Numbers,
) -> Result<CommandResult, NoMemory>
    requires { BreaksNoRule (tree_of checked.now) }
    ensures outcome { IfOk result (λ a. ElisionResult (tree_of checked.now) input.now a.status a.text a.reports) }
    ensures log { IfOk result (λ a. a.run_log ≡ None) }
{
    let run = run_elision(alloc, checked, input)?;
    let (status, text) = printed_run(alloc, checked, &run.output, run.trap, &run.reports)?;
    Ok(CommandResult {
        status,
        text,
        run_log: None,
        reports: run.reports,
    })
}

// The result of `format` for an accepted program: its canonical text.
fn text_of(alloc: Global, program: &Program) -> Result<CommandResult, NoMemory>
    ensures { IfOk result (λ a. a ≡ record {
      status = statuses.FINISHED;
      text = program_text (tree_of program.now);
      run_log = None;
      reports = [];
    }) }
{
    Ok(CommandResult {
        status: FINISHED,
        text: format(alloc, program)?,
        run_log: None,
        reports: Reports::new(alloc),
    })
}

// The result of `run SOURCE INPUT` with these options.
fn execute_run<R: Threads + Wait + Sync, F: Files, G: Gate + Sync>(
    rt: &R,
    alloc: Global,
    files: &mut F,
    source: &str,
    input: &str,
    workers: u32,
    throttle: u32,
    with_log: bool,
    gate: &G,
) -> Result<CommandResult, NoMemory>
    requires { IsInRange (Run source.now input.now workers throttle with_log) }
    ensures keeps { F.holds files.new ≡ F.holds files.old }
    ensures grows { OnErr result (F.faults files.old ≤ F.faults files.new) }
    ensures outcome { IfOk result (λ a. IsCallResult (Some (Run source.now input.now workers throttle with_log)) (F.holds files.old)
        (F.faults files.old) (F.faults files.new) a.status a.text a.run_log a.reports) }
{
    match prepare(alloc, files, source, input, false)? {
        Prepared::Ready(program, numbers) => run_result(
            rt, alloc, &program, &numbers, workers, throttle, with_log, gate,
        ),
        Prepared::Decided(outcome) => Ok(outcome),
    }
}

// The result of `play SOURCE INPUT` with these options.
fn execute_play<F: Files>(
    alloc: Global,
    files: &mut F,
    source: &str,
    input: &str,
    workers: u32,
    throttle: u32,
    seed: u32,
    with_log: bool,
) -> Result<CommandResult, NoMemory>
    requires { IsInRange (Play source.now input.now workers throttle seed with_log) }
    ensures keeps { F.holds files.new ≡ F.holds files.old }
    ensures grows { OnErr result (F.faults files.old ≤ F.faults files.new) }
    ensures outcome { IfOk result (λ a. IsCallResult (Some (Play source.now input.now workers throttle seed with_log)) (F.holds files.old)
        (F.faults files.old) (F.faults files.new) a.status a.text a.run_log a.reports) }
{
    match prepare(alloc, files, source, input, false)? {
        Prepared::Ready(program, numbers) => play_result(
            alloc, &program, &numbers, workers, throttle, seed, with_log,
        ),
        Prepared::Decided(outcome) => Ok(outcome),
    }
}

// The result of `serial SOURCE INPUT`, which keeps no run log.
fn execute_serial<F: Files>(
    alloc: Global,
    files: &mut F,
    source: &str,
    input: &str,
) -> Result<CommandResult, NoMemory>
    ensures keeps { F.holds files.new ≡ F.holds files.old }
    ensures grows { OnErr result (F.faults files.old ≤ F.faults files.new) }
    ensures outcome { IfOk result (λ a. IsCallResult (Some (Serial source.now input.now)) (F.holds files.old)
        (F.faults files.old) (F.faults files.new) a.status a.text a.run_log a.reports) }
{
    match prepare(alloc, files, source, input, false)? {
        Prepared::Ready(program, numbers) => elision_result(alloc, &program, &numbers),
        Prepared::Decided(outcome) => Ok(outcome),
    }
}

// The result of `format SOURCE`.
fn execute_format<F: Files>(
    alloc: Global,
    files: &mut F,
    source: &str,
) -> Result<CommandResult, NoMemory>
    ensures keeps { F.holds files.new ≡ F.holds files.old }
    ensures grows { OnErr result (F.faults files.old ≤ F.faults files.new) }
    ensures outcome { IfOk result (λ a. IsCallResult (Some (Format source.now)) (F.holds files.old)
        (F.faults files.old) (F.faults files.new) a.status a.text a.run_log a.reports) }
{
    match load_source(alloc, files, source)? {
        Source::Accepted(program, _) => text_of(alloc, program.program()),
        Source::Refused(text) => Ok(refused(alloc, text)),
        Source::Failed => read_fault(alloc, source),
    }
}

// The result of `bench`, which keeps no run log.
fn execute_bench<R: Threads + Wait + Sync, G: Gate + Sync>(
    rt: &R,
    alloc: Global,
    seed: u32,
    size: u32,
    gate: &G,
) -> Result<CommandResult, NoMemory>
    requires { IsInRange (Bench seed size) }
    ensures { IfOk result (λ a. (holds : Option Content) (faults : ℕ) →
        IsCallResult (Some (Bench seed size)) holds faults faults a.status a.text a.run_log a.reports) }
{
    Ok(CommandResult {
        status: FINISHED,
        text: bench(rt, alloc, seed, size, gate)?,
        run_log: None,
        reports: Reports::new(alloc),
    })
}

// The result of `check-record SOURCE INPUT RECORD` with this throttling limit.
fn execute_check<F: Files>(
    alloc: Global,
    files: &mut F,
    source: &str,
    input: &str,
    saved: &str,
    throttle: u32,
) -> Result<CommandResult, NoMemory>
    requires { IsInRange (CheckRecord source.now input.now saved.now throttle) }
    ensures keeps { F.holds files.new ≡ F.holds files.old }
    ensures grows { OnErr result (F.faults files.old ≤ F.faults files.new) }
    ensures outcome { IfOk result (λ a. IsCallResult (Some (CheckRecord source.now input.now saved.now throttle)) (F.holds files.old)
        (F.faults files.old) (F.faults files.new) a.status a.text a.run_log a.reports) }
{
    match prepare(alloc, files, source, input, false)? {
        Prepared::Ready(program, numbers) => {
            check_saved(alloc, files, &program, &numbers, saved, throttle)
        }
        Prepared::Decided(outcome) => Ok(outcome),
    }
}

// The result of `wave SOURCE INPUT` with these options.
fn execute_wave<R: Threads + Wait + Sync, F: Files, G: Gate + Sync>(
    rt: &R,
    alloc: Global,
    files: &mut F,
    source: &str,
    input: &str,
    workers: u32,
    throttle: u32,
    gate: &G,
) -> Result<CommandResult, NoMemory>
    requires { IsInRange (Wave source.now input.now workers throttle) }
    ensures keeps { F.holds files.new ≡ F.holds files.old }
    ensures grows { OnErr result (F.faults files.old ≤ F.faults files.new) }
    ensures outcome { IfOk result (λ a. IsCallResult (Some (Wave source.now input.now workers throttle)) (F.holds files.old)
        (F.faults files.old) (F.faults files.new) a.status a.text a.run_log a.reports) }
{
    match prepare(alloc, files, source, input, true)? {
        Prepared::Ready(program, numbers) => run_result(
            rt, alloc, &program, &numbers, workers, throttle, false, gate,
        ),
        Prepared::Decided(outcome) => Ok(outcome),
    }
}

// The result of `span SOURCE INPUT`.
fn execute_span<F: Files>(
    alloc: Global,
    files: &mut F,
    source: &str,
    input: &str,
) -> Result<CommandResult, NoMemory>
    ensures keeps { F.holds files.new ≡ F.holds files.old }
    ensures grows { OnErr result (F.faults files.old ≤ F.faults files.new) }
    ensures outcome { IfOk result (λ a. IsCallResult (Some (Span source.now input.now)) (F.holds files.old)
        (F.faults files.old) (F.faults files.new) a.status a.text a.run_log a.reports) }
{
    match prepare(alloc, files, source, input, false)? {
        Prepared::Ready(program, numbers) => weighed_result(alloc, &program, &numbers),
        Prepared::Decided(outcome) => Ok(outcome),
    }
}

// The result of a command.
fn execute_command<R: Threads + Wait + Sync, F: Files, G: Gate + Sync>(
    rt: &R,
    alloc: Global,
    command: Command<'_>,
    files: &mut F,
    gate: &G,
) -> Result<CommandResult, NoMemory>
    requires { IsInRange (command_data command) }
    ensures keeps { F.holds files.new ≡ F.holds files.old }
    ensures grows { OnErr result (F.faults files.old ≤ F.faults files.new) }
    ensures outcome { IfOk result (λ a. IsCallResult (Some (command_data command.entry)) (F.holds files.old)
        (F.faults files.old) (F.faults files.new) a.status a.text a.run_log a.reports) }
{
    match command {
        Command::Run {
            source,
            input,
            workers,
            throttle,
            record,
        } => execute_run(
            rt, alloc, files, source, input, workers, throttle, record, gate,
        ),
        Command::Play {
            source,
            input,
            workers,
            throttle,
            seed,
            record,
        } => execute_play(alloc, files, source, input, workers, throttle, seed, record),
        Command::Serial { source, input } => execute_serial(alloc, files, source, input),
        Command::Format { source } => execute_format(alloc, files, source),
        Command::Bench { seed, size } => execute_bench(rt, alloc, seed, size, gate),
        Command::CheckRecord {
            source,
            input,
            record,
            throttle,
        } => execute_check(alloc, files, source, input, record, throttle),
        Command::Wave {
            source,
            input,
            workers,
            throttle,
        } => execute_wave(rt, alloc, files, source, input, workers, throttle, gate),
        Command::Span { source, input } => execute_span(alloc, files, source, input),
    }
}

/// Returns the status, text, log and reports of the command that these words ask for. Returns an error
/// only if memory runs out. The files stay as they are.
pub fn execute<R: Threads + Wait + Sync, F: Files, G: Gate + Sync>(
    rt: &R,
    alloc: Global,
    words: &[String],
    files: &mut F,
    gate: &G,
) -> Result<CommandResult, NoMemory>
    ensures keeps { F.holds files.new ≡ F.holds files.old }
    ensures grows { OnErr result (F.faults files.old ≤ F.faults files.new) }
    ensures outcome { IfOk result (λ a. IsCallResult (command_of (words_of words.now)) (F.holds files.old)
        (F.faults files.old) (F.faults files.new) a.status a.text a.run_log a.reports) }
{
    match read_words(alloc, words)? {
        Some(command) => execute_command(rt, alloc, command, files, gate),
        None => Ok(refused(alloc, line(alloc, "refused usage\n")?)),
    }
}
