//! The lines of run logs.

ghost use Rattle.std.specs.Prelude.{◌≡◌, ◌++◌, codes, IfOk, OnOk};
ghost use Rattle.race_report.specs.CellNames.{cell_name};
ghost use Rattle.run_record.specs.LogLines.{access_line, end_line, iteration_line, log_line, log_text, stage_line};

use pipe_check::checked::Checked;
use pipe_model::access::Access;
use pipe_model::column::ColumnEnd;
use pipe_model::event::{Event, RunLog};
use pipe_model::list::Bytes;
use pipe_model::memory::NoMemory;
use pipe_model::node::Kind;
use pipe_model::tree::Declaration;
use race_report::outcome::name_of;
use race_report::race_text::{push_cell, word_of};
use std::alloc::{AllocError, Global};

// Appends the line of an event that has only an iteration.
fn push_iteration(
    text: &mut Vec<u8>,
    alloc: Global,
    word: &str,
    iteration: u32,
) -> Result<(), AllocError>
    ensures { OnOk result (text.new.items ≡ text.old.items ++ iteration_line word.now iteration) }
{
    let line = format!(in alloc; "{word} {iteration}\n")?;
    text.extend_from_slice(line.as_bytes())
}

// Appends the line of an access.
fn push_access(
    text: &mut Vec<u8>,
    alloc: Global,
    cells: &[Declaration],
    iteration: u32,
    access: Access,
) -> Result<(), AllocError>
    ensures { OnOk result (text.new.items ≡ text.old.items ++ access_line (cell_name cells.now) iteration access) }
{
    let word = word_of(access.kind);
    let made = format!(in alloc; "{word} {iteration} ")?;
    text.extend_from_slice(made.as_bytes())?;
    push_cell(text, alloc, cells, access.cell)?;
    let value = access.value;
    let valued = format!(in alloc; " {value}\n")?;
    text.extend_from_slice(valued.as_bytes())
}

// Appends the line of a next stage, unless it is of kind `Zero`.
fn push_stage(
    text: &mut Vec<u8>,
    alloc: Global,
    iteration: u32,
    kind: Kind,
    number: i64,
) -> Result<(), AllocError>
    ensures { OnOk result (text.new.items ≡ text.old.items ++ stage_line iteration kind number) }
{
    let line = match kind {
        Kind::Zero => return Ok(()),
        Kind::Wait => format!(in alloc; "wait {iteration} {number}\n")?,
        Kind::Continue => format!(in alloc; "continue {iteration} {number}\n")?,
    };
    text.extend_from_slice(line.as_bytes())
}

// Appends the line of the end of an iteration.
fn push_end(
    text: &mut Vec<u8>,
    alloc: Global,
    iteration: u32,
    end: ColumnEnd,
) -> Result<(), AllocError>
    ensures { OnOk result (text.new.items ≡ text.old.items ++ end_line iteration end) }
{
    match end {
        ColumnEnd::End => push_iteration(text, alloc, "end", iteration),
        ColumnEnd::Closed => push_iteration(text, alloc, "closed", iteration),
        ColumnEnd::Trapped(trap) => {
            let name = name_of(trap);
            let line = format!(in alloc; "trap {iteration} {name}\n")?;
            text.extend_from_slice(line.as_bytes())
        }
    }
}

// Appends the line of an event.
fn push_event(
    text: &mut Vec<u8>,
    alloc: Global,
    cells: &[Declaration],
    event: Event,
) -> Result<(), AllocError>
    ensures { OnOk result (text.new.items ≡ text.old.items ++ log_line (cell_name cells.now) event) }
{
    match event {
        Event::Begin(iteration) => push_iteration(text, alloc, "begin", iteration),
        Event::Access(iteration, access) => push_access(text, alloc, cells, iteration, access),
        Event::Advance(iteration, kind, number) => push_stage(text, alloc, iteration, kind, number),
        Event::Enter(iteration) => push_iteration(text, alloc, "enter", iteration),
        Event::Finish(iteration, end) => push_end(text, alloc, iteration, end),
        Event::Stop => text.extend_from_slice(b"stop\n"),
    }
}

// The lines of events, with the names of the declared cells.
pub(crate) fn lines_of(
    alloc: Global,
    cells: &[Declaration],
    events: &[Event],
) -> Result<Vec<u8>, AllocError>
    ensures { IfOk result (λ text. text.items ≡ log_text cells.now events.now) }
{
    let mut text = Vec::new(alloc);
    for event in events {
        push_event(&mut text, alloc, cells, *event)?;
    }
    Ok(text)
}

/// Builds the lines of a run log, one for each event, with the names of the program's cells. An
/// event that names a next stage of kind `Zero`, which no run has, gets no line. Returns an error
/// only if memory runs out.
pub fn text(alloc: Global, run_log: &RunLog, checked: &Checked) -> Result<Bytes, NoMemory>
    ensures { IfOk result (λ bytes. bytes ≡ log_text checked.now.cells run_log.now.events) }
{
    let cells = checked.program().cells.as_slice();
    let events = run_log.events.as_slice();
    Ok(Bytes::from_vec(lines_of(alloc, cells, events)?))
}
