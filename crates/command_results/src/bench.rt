//! The measured runs of a generated workload.

ghost use Rattle.std.specs.Prelude.{◌≡◌, ◌≤◌, ◌++◌, ℕ, ℤ, List, IfOk, OnOk};
ghost use Rattle.pipe_gen.specs.declared.choices.TheConstants as choices;
ghost use Rattle.pipe_gen.specs.declared.workload.TheConstants as workloads;
ghost use Rattle.pipe_model.specs.Language.SyntaxTree.{SyntaxTree, tree_of};
ghost use Rattle.command_results.specs.Benchmarks.{IsGenerated, elision_summary, last_or_zero, run_line, summary_text};
ghost use Rattle.command_results.specs.declared.program_run.TheConstants as bounds;
ghost use Rattle.command_results.specs.SerialResults.{elision_columns, elision_output};
ghost use Rattle.cilkp_words.specs.declared.ranges.TheConstants as ranges;
ghost use Rattle.pipe_model.specs.Language.CheckingRules.{BreaksNoRule};
ghost use Rattle.schedule_laws.specs.StartCounts.{instances_in};
ghost use Rattle.pipe_model.specs.Races.Columns.{node_columns};

use crate::load::{Input, Source, input_of, source_of};
use crate::program_run::{FinishedRun, elide, instance_count, run_program};
use pipe_check::checked::Checked;
use pipe_gen::workload::generate;
use pipe_model::column::Columns;
use pipe_model::list::{Bytes, Numbers};
use pipe_model::memory::NoMemory;
use pipe_worker::gate::Gate;
use std::alloc::{AllocError, Global};
use std::sync::Wait;
use std::thread::Threads;

// The program and the input numbers of the generated texts, which are read as any other source and
// input.
fn generated_program(alloc: Global, seed: u32, size: u32) -> Result<(Checked, Numbers), NoMemory>
    requires seed { seed ≤ choices.MOST_SEED }
    requires size { (1 ≤ size) × (size ≤ workloads.MOST_SIZE) }
    ensures { IfOk result (λ r. IsGenerated seed size (tree_of r.0) r.1) }
{
    let generated = generate(alloc, seed, size)?;
    let Source::Accepted(program, _) = source_of(alloc, generated.source.as_slice())? else {
        unreachable!()
    };
    let Input::Accepted(numbers) = input_of(alloc, generated.input.as_slice())? else {
        unreachable!()
    };
    Ok((program, numbers))
}

// The last number, or 0 if there is none.
fn last_number(numbers: &Numbers) -> i64
    ensures { result ≡ last_or_zero numbers.now }
{
    match numbers.as_slice().last() {
        None => 0,
        Some(number) => *number,
    }
}

// What a summary says of a run.
#[derive(Drop)]
struct Measured {
    workers: u32,
    // The stage instances of the serial elision.
    instances: u64,
    // The last number of its output, or 0.
    last: i64,
}

// The counts of columns and of an output.
fn measure(workers: u32, columns: &Columns, output: &Numbers) -> Measured
    requires { instances_in (node_columns columns.now) ≤ bounds.MOST_COUNTED_INSTANCES }
    ensures { result ≡ record { workers = workers; instances = instances_in (node_columns columns.now); last = last_or_zero output.now } }
{
    Measured {
        workers,
        instances: instance_count(columns),
        last: last_number(output),
    }
}

// Runs the generated program. A run without a report has the columns and the output of the serial
// elision. A run with a report may have others, and the summary is of the elision, which is run then.
fn measured_run<R: Threads + Wait + Sync, G: Gate + Sync>(
    rt: &R,
    alloc: Global,
    checked: &Checked,
    input: &Numbers,
    workers: u32,
    throttle: u32,
    gate: &G,
) -> Result<Measured, NoMemory>
    requires accepted { BreaksNoRule (tree_of checked.now) }
    requires bounded { instances_in (elision_columns (tree_of checked.now) input.now) ≤ bounds.MOST_COUNTED_INSTANCES }
    requires workers { 1 ≤ workers }
    requires throttle { (1 ≤ throttle) × (throttle ≤ ranges.MOST_THROTTLE) }
    ensures { IfOk result (λ m. m ≡ record {
      workers = workers;
      instances = instances_in (elision_columns (tree_of checked.now) input.now);
      last = last_or_zero (elision_output (tree_of checked.now) input.now);
    }) }
{
    let run = run_program(rt, alloc, checked, input, workers, throttle, gate)?;
    if run.reports.is_empty() {
        let FinishedRun {
            output,
            run_log,
            ..
        } = run;
        let columns = run_log.into_columns(alloc)?;
        return Ok(measure(workers, &columns, &output));
    }
    drop(run);
    let elision = elide(alloc, checked, input)?;
    let measured = measure(workers, &elision.columns, &elision.output);
    drop(elision);
    Ok(measured)
}

// Appends the line of a run.
fn push_run(text: &mut Vec<u8>, alloc: Global, run: &Measured) -> Result<(), AllocError>
    ensures { OnOk result (text.new.items ≡ text.old.items ++ run_line run.now.workers run.now.last) }
{
    let line = format!(in alloc; "workers {} last {}\n", run.workers, run.last)?;
    text.extend_from_slice(line.as_bytes())
}

// The lines of a summary of two runs.
fn summary_text(
    alloc: Global,
    items: usize,
    run: &Measured,
    other: &Measured,
) -> Result<Bytes, NoMemory>
    ensures { IfOk result (λ text. text ≡ summary_text items run.now.instances run.now.workers run.now.last other.now.workers
        other.now.last) }
{
    let counts = format!(in alloc; "items {items}\ninstances {}\n", run.instances)?;
    let mut text = counts.into_bytes();
    push_run(&mut text, alloc, run)?;
    push_run(&mut text, alloc, other)?;
    Ok(Bytes::from_vec(text))
}

// Runs a program twice, and returns the summary.
fn summary_of<R: Threads + Wait + Sync, G: Gate + Sync>(
    rt: &R,
    alloc: Global,
    program: &Checked,
    numbers: &Numbers,
    gate: &G,
) -> Result<Bytes, NoMemory>
    requires accepted { BreaksNoRule (tree_of program.now) }
    requires bounded { instances_in (elision_columns (tree_of program.now) numbers.now) ≤ bounds.MOST_COUNTED_INSTANCES }
    ensures { IfOk result (λ text. text ≡ elision_summary (tree_of program.now) numbers.now) }
{
    let with_one = measured_run(rt, alloc, program, numbers, 1, 4, gate)?;
    let with_eight = measured_run(rt, alloc, program, numbers, 8, 32, gate)?;
    summary_text(alloc, numbers.len(), &with_one, &with_eight)
}

/// Runs the generated program on the generated input of this seed and size, once with 1 worker and
/// throttling limit 4 and once with 8 workers and limit 32, and returns the summary. Returns an error
/// only if memory runs out.
pub fn bench<R: Threads + Wait + Sync, G: Gate + Sync>(
    rt: &R,
    alloc: Global,
    seed: u32,
    size: u32,
    gate: &G,
) -> Result<Bytes, NoMemory>
    requires seed { seed ≤ choices.MOST_SEED }
    requires size { (1 ≤ size) × (size ≤ workloads.MOST_SIZE) }
    ensures { IfOk result (λ text. (tree : SyntaxTree) (numbers : List ℤ) → IsGenerated seed size tree numbers
        → text ≡ elision_summary tree numbers) }
{
    let (program, numbers) = generated_program(alloc, seed, size)?;
    let summary = summary_of(rt, alloc, &program, &numbers, gate);
    drop(program);
    summary
}
