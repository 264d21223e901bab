//! Runs that are played, and judged by what is printed of them.

ghost use Rattle.std.specs.Prelude.{◌<◌, ◌^◌, length};
ghost use Rattle.pipe_model.specs.Language.CheckingRules.{BreaksNoRule};
ghost use Rattle.pipe_model.specs.Language.SyntaxTree.{tree_of};

use crate::sources::accepted;
use pipe_check::checked::Checked;
use pipe_model::event::Events;
use pipe_model::list::Numbers;
use pipe_model::memory::NoMemory;
use pipe_model::report::Reports;
use race_report::race_text;
use record_check::answer::{RecordAnswer, RunKind};
use record_check::check_record::check_record;
use record_parser::parse::parse_record;
use run_record::log_text;
use schedule_play::program_play::{Played, play};
use stage_code::lower::lower;
use std::alloc::Global;

// Two iterations may access `s`, and emit, in either order.
const RACING_SUMS: &str =
    "limits iterations 8, stages 4, steps 100, emits 8; cell n = 0; cell s = 0; \
    pipe_while (n < 3) { n = n + 1; let t = n; pipe_continue(1); s = s + t; emit s; }";

// Plays an accepted program by a choice that is taken each time.
fn play_of(alloc: Global, checked: &Checked, workers: u32, choice: u32) -> Result<Played, NoMemory>
    requires accepted { BreaksNoRule (tree_of checked.now) }
    requires workers { 0 < workers }
{
    let code = lower(alloc, checked)?;
    let input = Numbers::new(alloc);
    let played = play(
        alloc,
        checked,
        &code,
        &input,
        workers,
        16,
        &[choice],
        10_000,
    );
    drop(code);
    drop(input);
    played
}

// What is printed of a play: its races, and its log.
fn printed(alloc: Global, checked: &Checked, played: &Played) -> Result<Vec<u8>, NoMemory> {
    let mut record = race_text::text(alloc, &played.reports, checked)?.into_vec();
    let log = log_text::text(alloc, &played.run_log, checked)?;
    record.extend_from_slice(log.as_slice())?;
    Ok(record)
}

// Whether the answer is a finished run with these races, of which there are some.
fn is_run_with(answer: &RecordAnswer, races: &Reports) -> bool {
    match answer {
        RecordAnswer::Run(kind, _, reports) => {
            *kind == RunKind::Finished
                && !reports.is_empty()
                && reports.as_slice() == races.as_slice()
        }
        RecordAnswer::NotAllowed(_) => false,
    }
}

// Whether events are those of a finished run with these races.
fn are_finished(alloc: Global, checked: &Checked, events: &Events, races: &Reports) -> bool
    requires accepted { BreaksNoRule (tree_of checked.now) }
    requires short { length events.now < 2 ^ 32 }
{
    let Ok(code) = lower(alloc, checked) else {
        return false;
    };
    let input = Numbers::new(alloc);
    let answer = check_record(alloc, checked, &code, &input, 16, events);
    drop(code);
    drop(input);
    match answer {
        Ok(answer) => {
            let found = is_run_with(&answer, races);
            drop(answer);
            found
        }
        Err(NoMemory) => false,
    }
}

// Whether a record is one of a finished run with these races.
fn is_finished(alloc: Global, checked: &Checked, record: &[u8], races: &Reports) -> bool
    requires { BreaksNoRule (tree_of checked.now) }
{
    match parse_record(alloc, record, checked) {
        Ok(events) => are_finished(alloc, checked, &events, races),
        Err(_) => false,
    }
}

// Whether what is printed of a play is a record of a finished run, with the same races.
fn is_record(alloc: Global, checked: &Checked, played: &Played) -> bool
    requires { BreaksNoRule (tree_of checked.now) }
{
    match printed(alloc, checked, played) {
        Ok(record) => is_finished(alloc, checked, record.as_slice(), &played.reports),
        Err(NoMemory) => false,
    }
}

// The same for a play of an accepted program.
fn is_confirmed(alloc: Global, checked: &Checked, workers: u32, choice: u32) -> bool
    requires accepted { BreaksNoRule (tree_of checked.now) }
{
    if workers == 0 {
        return false;
    }
    match play_of(alloc, checked, workers, choice) {
        Ok(played) => {
            let found = is_record(alloc, checked, &played);
            drop(played);
            found
        }
        Err(NoMemory) => false,
    }
}

// Workers, and a choice that is taken each time.
const PLAYS: [(u32, u32); 6] = [(1, 0), (4, 0), (1, 1), (4, 1), (1, 59), (4, 59)];

// The first play that is not confirmed.
fn first_other(alloc: Global, checked: &Checked) -> Option<usize>
    requires { BreaksNoRule (tree_of checked.now) }
{
    for (index, (workers, choice)) in PLAYS.iter().enumerate() {
        if !is_confirmed(alloc, checked, *workers, *choice) {
            return Some(index);
        }
    }
    None
}

// The same for the program of `RACING_SUMS`; the number of plays if it is refused.
fn first_other_of_sums(alloc: Global) -> Option<usize> {
    match accepted(alloc, RACING_SUMS.as_bytes()) {
        Some(checked) => {
            let found = first_other(alloc, &checked);
            drop(checked);
            found
        }
        None => Some(PLAYS.len()),
    }
}

#[test]
fn played_runs_are_confirmed(rt: HostRuntime) {
    let other = first_other_of_sums(rt.alloc());
    assert!(rt; other.is_none(), "{other:?}");
}
