//! A plain checker of finished runs. It shares no code with the scheduler: it goes through the events
//! of a log, and asks of each whether the events before allow it.

ghost use Rattle.std.specs.Prelude.{◌≡◌};
ghost use Rattle.hall_tests.specs.PreparedPrograms.{IsPrepared};
ghost use Rattle.pipe_model.specs.Language.SyntaxTree.{tree_of};

mod control;
mod recorded;
mod replay;
mod values;

use crate::sources::Prepared;
use control::control_verdict;
use pipe_model::event::Event;
use replay::program_verdict;
use std::alloc::Global;
use values::value_verdict;

/// What is wrong with a log.
#[derive(Clone, Copy, PartialEq, Eq)]
pub enum Verdict {
    /// Each event is allowed, and the run is finished.
    Finished,
    /// The control part does not allow the event at this index; at the end, the run is not finished.
    Control(usize),
    /// The access at this index reads another value than its cell has, or is to a cell that is not declared.
    Value(usize),
    /// This iteration does not do what its program does.
    Program(u32),
    /// Memory ran out before all was looked at.
    OutOfMemory,
}

/// Checks the log of a finished run, under a throttling limit, of a program whose cells are 0 at first,
/// and which uses neither the input nor the output.
pub fn check(alloc: Global, prepared: &Prepared, throttle: u32, events: &[Event]) -> Verdict
    requires prepared { IsPrepared (tree_of prepared.now.checked) prepared.now.code }
{
    let control = control_verdict(alloc, throttle, events);
    if control != Verdict::Finished {
        return control;
    }
    let values = value_verdict(alloc, prepared.cells(), events);
    if values != Verdict::Finished {
        return values;
    }
    program_verdict(alloc, prepared, events)
}
