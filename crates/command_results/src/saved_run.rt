//! Checks a saved run log against a program and its input.

ghost use Rattle.std.specs.Prelude.{◌≡◌, ◌≤◌, ◌++◌, ℕ, List, Option, length, IfOk, OnErr, Some};
ghost use Rattle.pipe_io.specs.Faults.{CountsFault};
ghost use Rattle.pipe_model.specs.Language.CheckingRules.{BreaksNoRule};
ghost use Rattle.pipe_model.specs.Language.SyntaxTree.{tree_of};
ghost use Rattle.race_report.specs.CellNames.{race_lines};
ghost use Rattle.record_parser.specs.declared.bounds.TheConstants as bounds;
ghost use Rattle.command_results.specs.LoadedRecords.{IsReadRecord, IsRecordLoad, IsSavedResult, is_record_fault};
ghost use Rattle.command_results.specs.RecordResults.{IsRecordOf, RecordResult, kind_line, status_of_reports};

use crate::command_result::{CommandResult, read_fault, refused};
use crate::load::MISSING;
use crate::refusal::numbered_line;
use crate::text::{line, named_line};
use pipe_check::checked::Checked;
use pipe_io::files::Files;
use pipe_io::whole::{Whole, read_whole};
use pipe_model::event::{Events, RunLog};
use pipe_model::exit_status::{FINISHED, RACES};
use pipe_model::list::{Bytes, Numbers};
use pipe_model::memory::NoMemory;
use pipe_model::report::Reports;
use race_report::race_text::text;
use record_check::answer::{RecordAnswer, RunKind};
use record_check::check_record::check_record;
use record_parser::bounds::LONGEST_RECORD;
use record_parser::fault::RecordFault;
use record_parser::parse::parse_record;
use run_record::logged_run::LoggedRun;
use stage_code::lower::lower;
use std::alloc::Global;

/// The result of loading a record.
#[derive(Drop)]
pub enum Record {
    /// The events of the record.
    Accepted(Events),
    /// The line that refuses the record.
    Refused(Bytes),
    /// A read failed.
    Failed,
}

// The events of these bytes, or the line that refuses them.
fn record_of(alloc: Global, bytes: &[u8], checked: &Checked) -> Result<Record, NoMemory>
    requires short { length bytes.now ≤ bounds.LONGEST_RECORD }
    ensures { IfOk result (IsReadRecord (tree_of checked.now) bytes.now) }
{
    match parse_record(alloc, bytes, checked) {
        Ok(events) => Ok(Record::Accepted(events)),
        Err(RecordFault::BadLine(n)) => Ok(Record::Refused(numbered_line(
            alloc,
            "refused record BadLine at ",
            n,
        )?)),
        Err(_) => Err(NoMemory),
    }
}

/// Loads the events of a record of a program. Returns an error only if memory runs out; a file that is
/// missing, is refused or cannot be read is an `Ok` result.
pub fn load_record<F: Files>(
    alloc: Global,
    files: &mut F,
    name: &str,
    checked: &Checked,
) -> Result<Record, NoMemory>
    ensures keeps { F.holds files.new ≡ F.holds files.old }
    ensures cause { IfOk result (λ r. CountsFault (is_record_fault r) (F.faults files.old) (F.faults files.new)) }
    ensures memory { OnErr result (F.faults files.new ≡ F.faults files.old) }
    ensures outcome { IfOk result (IsRecordLoad (F.holds files.old) (tree_of checked.now) name.now) }
{
    match read_whole(alloc, files, name, LONGEST_RECORD)? {
        Whole::Missing => Ok(Record::Refused(named_line(alloc, MISSING, name)?)),
        Whole::Failed => Ok(Record::Failed),
        Whole::TooLong(_) => Ok(Record::Refused(line(alloc, "refused record TooLong\n")?)),
        Whole::Bytes(bytes) => record_of(alloc, bytes.as_slice(), checked),
    }
}

// The words of the first line.
fn kind_words(kind: RunKind) -> &'static str
    ensures { result.now ≡ kind_line kind }
{
    match kind {
        RunKind::Finished => "run finished\n",
        RunKind::Unfinished => "run unfinished\n",
        RunKind::Stopped => "run stopped\n",
    }
}

// The line that says how far the run is, and the lines of its races.
fn run_text(
    alloc: Global,
    checked: &Checked,
    kind: RunKind,
    reports: &Reports,
) -> Result<Bytes, NoMemory>
    ensures { IfOk result (λ bytes. bytes ≡ kind_line kind ++ race_lines checked.now.cells reports.now) }
{
    let races = text(alloc, reports, checked)?;
    let mut lines = line(alloc, kind_words(kind))?.into_vec();
    lines.extend_from_slice(races.as_slice())?;
    Ok(Bytes::from_vec(lines))
}

// The result for a record that is a run.
fn result_of_run(
    alloc: Global,
    checked: &Checked,
    kind: RunKind,
    run_log: RunLog,
    reports: Reports,
) -> Result<CommandResult, NoMemory>
    ensures { IfOk result (λ a. a ≡ record {
      status = status_of_reports reports;
      text = kind_line kind ++ race_lines checked.now.cells reports;
      run_log = Some run_log;
      reports = reports;
    }) }
{
    let text = run_text(alloc, checked, kind, &reports)?;
    let status = if reports.is_empty() { FINISHED } else { RACES };
    Ok(CommandResult {
        status,
        text,
        run_log: Some(LoggedRun::of_run_log(run_log)),
        reports,
    })
}

// The result for the events of a record.
fn result_of_events(
    alloc: Global,
    checked: &Checked,
    input: &Numbers,
    throttle: u32,
    events: &Events,
) -> Result<CommandResult, NoMemory>
    requires accepted { BreaksNoRule (tree_of checked.now) }
    requires throttle { 1 ≤ throttle }
    requires bounded { length events.now ≤ bounds.LONGEST_RECORD }
    ensures { IfOk result (λ a. (name : List ℕ) (file : Option (List ℕ)) → IsRecordOf (tree_of checked.now) file events.now
        → RecordResult (tree_of checked.now) input.now throttle name file a.status a.text a.run_log a.reports) }
{
    let code = lower(alloc, checked)?;
    match check_record(alloc, checked, &code, input, throttle, events)? {
        RecordAnswer::Run(kind, run_log, reports) => {
            result_of_run(alloc, checked, kind, run_log, reports)
        }
        RecordAnswer::NotAllowed(k) => Ok(refused(
            alloc,
            numbered_line(alloc, "refused record NotAllowed at ", k)?,
        )),
    }
}

/// Checks whether the record of this name is a run of the program on its input under the throttling
/// limit, and finds the races of that run. Returns an error only if memory runs out.
pub fn check_saved<F: Files>(
    alloc: Global,
    files: &mut F,
    checked: &Checked,
    input: &Numbers,
    name: &str,
    throttle: u32,
) -> Result<CommandResult, NoMemory>
    requires accepted { BreaksNoRule (tree_of checked.now) }
    requires throttle { 1 ≤ throttle }
    ensures keeps { F.holds files.new ≡ F.holds files.old }
    ensures grows { OnErr result (F.faults files.old ≤ F.faults files.new) }
    ensures outcome { IfOk result (λ a. IsSavedResult (F.holds files.old) (F.faults files.old) (F.faults files.new) (tree_of checked.now)
        input.now throttle name.now a.status a.text a.run_log a.reports) }
{
    match load_record(alloc, files, name, checked)? {
        Record::Accepted(events) => result_of_events(alloc, checked, input, throttle, &events),
        Record::Refused(text) => Ok(refused(alloc, text)),
        Record::Failed => read_fault(alloc, name),
    }
}
