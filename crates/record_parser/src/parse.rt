//! The events of a record.

ghost use Rattle.std.specs.Prelude.{◌≡◌, ◌≢◌, ◌<◌, ◌≤◌, ◌+◌, ◌++◌, ◌∷◌, [], IfErr, IfOk, List, ℕ, length};
ghost use Rattle.pipe_model.specs.declared.event.Event.{Event as PlainEvent};
ghost use Rattle.pipe_model.specs.Language.CheckingRules.{cell_total};
ghost use Rattle.pipe_model.specs.declared.bounds.TheConstants.{MOST_CELLS};
ghost use Rattle.record_parser.specs.RecordLines.{CannotFollow, IsFaultOf, IsRecord, lines_of};
ghost use Rattle.record_parser.specs.declared.bounds.TheConstants as bounds;
ghost use Rattle.std.specs.Bool.{OnFalse, OnTrue};

use crate::bounds::LONGEST_RECORD;
use crate::fault::RecordFault;
use crate::log_line::event_of_line;
use crate::outcome_line::is_outcome_line;
use crate::split::split_at_first;
use pipe_check::checked::Checked;
use pipe_model::event::Events;
use pipe_model::memory::NoMemory;
use pipe_model::tree::Declaration;
use std::alloc::Global;

// A line without its line feed, and what follows it.
#[derive(Clone, Copy)]
struct Divided<'a> {
    line: &'a [u8],
    following: &'a [u8],
}

// Takes the first line from a text that is not empty.
fn first_line(text: &[u8]) -> Divided<'_>
    requires nonempty { 0 < length text.now }
    ensures lines { lines_of text.now ≡ result.line.now ∷ lines_of result.following.now }
    ensures shorter { length result.following.now < length text.now }
{
    match split_at_first(text, b'\n') {
        Some((line, following)) => Divided { line, following },
        None => Divided {
            line: text,
            following: &[],
        },
    }
}

// Adds the event of a line; a line of an outcome before the first event is passed over. Returns whether
// the line is one of these.
fn read_line(events: &mut Events, cells: &[Declaration], line: &[u8]) -> Result<bool, NoMemory>
    requires bounded { cell_total cells.now ≤ MOST_CELLS }
    ensures yes { IfOk result (λ b. OnTrue b ((lines : List (List ℕ)) → IsRecord cells.now lines events.old
        → IsRecord cells.now (lines ++ line.now ∷ []) events.new)) }
    ensures no { IfOk result (λ b. OnFalse b (CannotFollow cells.now events.old line.now)) }
{
    if let Some(event) = event_of_line(cells, line) {
        events.push(event)?;
        return Ok(true);
    }
    if !events.is_empty() {
        return Ok(false);
    }
    Ok(is_outcome_line(cells, line))
}

// Reads the lines of a text that is not too long.
fn read_lines(alloc: Global, cells: &[Declaration], text: &[u8]) -> Result<Events, RecordFault>
    requires bounded { cell_total cells.now ≤ MOST_CELLS }
    requires short { length text.now ≤ bounds.LONGEST_RECORD }
    ensures read { IfOk result (IsRecord cells.now (lines_of text.now)) }
    ensures bounded { IfOk result (λ events. length events ≤ length text.now) }
    ensures fault { IfErr result (IsFaultOf cells.now text.now) }
{
    let mut events = Events::new(alloc);
    let mut rest = text;
    let mut number = 0;
    while !rest.is_empty() {
        let Divided { line, following } = first_line(rest);
        let Ok(is_known) = read_line(&mut events, cells, line) else {
            return Err(RecordFault::NoMemory);
        };
        if !is_known {
            return Err(RecordFault::BadLine(number));
        }
        number += 1;
        rest = following;
    }
    Ok(events)
}

/// Returns the events of a record: the text of a run log, one line for each event, after lines of the
/// run's outcome, which are passed over. The last line feed may be missing. An iteration is at most
/// 65,536, a value and a stage number are each an `i64`, and a cell is one of the program.
///
/// # Errors
/// `TooLong` exactly if the text has more than 67,108,864 bytes. Otherwise `BadLine` with the number of
/// the first line that is neither the line of an event, nor, before the first of these, an emitted number,
/// a race or a trap. Out of memory.
pub fn parse_record(alloc: Global, bytes: &[u8], checked: &Checked) -> Result<Events, RecordFault>
    ensures read { IfOk result (IsRecord checked.now.cells (lines_of bytes.now)) }
    ensures short { IfOk result (λ events. length bytes.now ≤ bounds.LONGEST_RECORD) }
    ensures bounded { IfOk result (λ events. length events ≤ length bytes.now) }
    ensures fault { IfErr result (IsFaultOf checked.now.cells bytes.now) }
{
    let _count = checked.cell_count();
    if LONGEST_RECORD < bytes.len() {
        return Err(RecordFault::TooLong);
    }
    read_lines(alloc, checked.program().cells.as_slice(), bytes)
}
