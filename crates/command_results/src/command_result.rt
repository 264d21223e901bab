//! The result of a command before its text is printed.

ghost use Rattle.std.specs.Prelude.{◌≡◌, [], None, IfOk};
ghost use Rattle.pipe_model.specs.Texts.{fault_read};
ghost use Rattle.pipe_model.specs.declared.exit_status.TheConstants as statuses;

use crate::text::named_line;
use pipe_model::exit_status::{READ_FAULT, REFUSED};
use pipe_model::list::Bytes;
use pipe_model::memory::NoMemory;
use pipe_model::report::Reports;
use run_record::logged_run::LoggedRun;
use std::alloc::Global;

/// The result of a command before its text is printed.
#[derive(Drop)]
pub struct CommandResult {
    pub status: u8,
    pub text: Bytes,
    pub run_log: Option<LoggedRun>,
    pub reports: Reports,
}

/// Returns the result of a call that is refused with this line.
pub fn refused(alloc: Global, text: Bytes) -> CommandResult
    ensures { result ≡ record { status = statuses.REFUSED; text = text; run_log = None; reports = [] } }
{
    CommandResult {
        status: REFUSED,
        text,
        run_log: None,
        reports: Reports::new(alloc),
    }
}

/// Returns the result of a call that could not read the file of this name. Returns an error only if
/// memory runs out.
pub fn read_fault(alloc: Global, name: &str) -> Result<CommandResult, NoMemory>
    ensures { IfOk result (λ a. a ≡ record { status = statuses.READ_FAULT; text = fault_read name.now; run_log = None; reports = [] }) }
{
    Ok(CommandResult {
        status: READ_FAULT,
        text: named_line(alloc, "fault read ", name)?,
        run_log: None,
        reports: Reports::new(alloc),
    })
}
