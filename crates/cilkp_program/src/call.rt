//! The top call: runs a program, plays it by a schedule, runs its serial elision alone, prints its canonical text, runs a
//! generated program and prints a summary, checks a saved run log, runs a wave loop, or finds work and span.

ghost use Rattle.std.specs.Prelude.{◌≡◌, ◌≢◌, ℕ, ℤ, ◌≤◌, ◌⊎◌, ◌↔◌, List, Option, None, IfOk, IfSome, OnErr, is_some, true};
ghost use Rattle.pipe_model.specs.Language.SyntaxTree.{SyntaxTree};
ghost use Rattle.pipe_model.specs.declared.exit_status.TheConstants as statuses;
ghost use Rattle.command_results.specs.PrintedResults.{IsPrinted, IsCutShort, IsGivenUp};
ghost use Rattle.pipe_io.specs.Faults.{CountGrew, CountRose};
ghost use Rattle.cilkp_program.specs.Formatting.{ReturnsText, IsToFormat};
ghost use Rattle.command_results.specs.Headline.{IsToRun};
ghost use Rattle.command_results.specs.RecordedRuns.{HasSeededEvents, IsFinishedLog, IsToPlay, ReturnsRun};
ghost use Rattle.command_results.specs.CommandFiles.{KeepsLog, asks_record};
ghost use Rattle.command_results.specs.BenchCalls.{IsToBench, ReturnsSummary};
ghost use Rattle.cilkp_words.specs.CommandWords.{command_of, words_of};
ghost use Rattle.cilkp_program.specs.SerialCalls.{ReturnsElision, IsToRunSerially};
ghost use Rattle.cilkp_program.specs.RecordCalls.{IsToCheck, ReturnsCheck};
ghost use Rattle.command_results.specs.SpanCalls.{IsToWeigh, ReturnsSpan};
ghost use Rattle.cilkp_program.specs.WaveCalls.{IsToRunWave, ReturnsGrid};

use command_results::execute::execute;
use pipe_io::files::Files;
use pipe_io::sink::Sink;
use pipe_io::whole::{WriteEnd, write_text};
use pipe_model::exit_status::WRITE_FAULT;
use pipe_model::memory::NoMemory;
use pipe_model::report::Reports;
use pipe_worker::gate::Gate;
use run_record::logged_run::LoggedRun;
use std::alloc::Global;
use std::sync::Wait;
use std::thread::Threads;

/// How a call ended.
#[derive(Drop)]
pub struct Ended {
    /// 0: the run finished without a trap, the saved run has no race, or the canonical text of the
    /// program, the summary of a generated one, or work and span were printed. 1: the words or a file
    /// were refused. 2: the program has a race, or the saved run has one. 3: the run trapped. 4: a read
    /// failed. 5: a write failed.
    pub status: u8,
    /// The events of the run, or of the saved run that was checked, and its columns; `None` if there
    /// is none, or only the serial elision was run. With status 5 log and reports are still those of the
    /// complete result.
    pub run_log: Option<LoggedRun>,
    /// A race of each cell that has one, rising by cell; empty if no program was run.
    pub reports: Reports,
    /// The number of bytes that the sink took in the call.
    pub written: u64,
}

/// Executes the command `run SOURCE INPUT [--workers P] [--throttle K] [--record]`,
/// `play SOURCE INPUT [--workers P] [--throttle K] [--seed N] [--record]`, `serial SOURCE INPUT`,
/// `format SOURCE`, `bench [--seed N] [--size M]`, `check-record SOURCE INPUT RECORD [--throttle K]`,
/// `wave SOURCE INPUT [--workers P] [--throttle K]` or `span SOURCE INPUT`. Writes all text to `out`, and returns the
/// status, the log of the run, the reports of races, and how many bytes `out` took. `run` runs the
/// program of an accepted source on the numbers of an input with `P` workers, each on a thread of its
/// own, while at most `K` iterations are alive. `play` plays the program on one thread by the schedule
/// that the choices of the seed make. With `--record` the lines of the run log follow the text. `serial`
/// runs the serial elision alone: it has the status, the text and the reports of that, and no run log.
/// `format` prints the canonical text of an accepted source's program. `bench` runs a generated program
/// on a generated input twice, with 1 and with 8 workers, and prints a summary. `check-record` checks
/// whether a saved run log is a run of the program on the input while at most `K` iterations are alive,
/// says how far the run is, and reports its races. `wave` lowers a wave loop to a pipeline, and runs it
/// as `run` does. `span` prints the work, the span and the heaviest path of the serial elision, each weighed in
/// steps. A worker of `run`, `bench` or `wave` asks the gate before each stage instance. Returns an error
/// only if memory runs out; a run that was stopped because memory ran out ends so too.
///
/// The text was written completely, unless the status is 5 or the call returns an error: with status 5 a
/// proper prefix was written, and with an error such a prefix or nothing. After a read that failed the
/// text is the line `fault read NAME`. The files stay as they are.
pub fn cilkp<R: Threads + Wait + Sync, F: Files, S: Sink, G: Gate + Sync>(
    rt: &R,
    alloc: Global,
    words: &[String],
    files: &mut F,
    out: &mut S,
    gate: &G,
) -> Result<Ended, NoMemory>
    // The headline, for `run` and `play`: for every accepted program, input, number of workers, seed and
    // limit from the throttling limit of the command on, if the files' content is known and neither count of faults rises, a call that
    // returns `Ok` reports a
    // cell exactly when the run's own dag has two parallel conflicting accesses to it, reports some
    // cell exactly when the serial elision's dag has such a pair, and otherwise prints exactly the
    // serial elision's output and trap; at most the throttling limit of iterations are alive at any
    // event.
    ensures headline { IfOk result (λ e. ¬ (CountRose (F.faults files.old) (F.faults files.new))
        → ¬ (CountRose (S.faults out.old) (S.faults out.new)) →
        IfSome (F.holds files.old) (λ content. (tree : SyntaxTree) (numbers : List ℤ) (limit : ℕ) →
        IsToRun (command_of (words_of words.now)) content tree numbers limit →
        ReturnsRun (asks_record (command_of (words_of words.now))) tree numbers limit e.status e.written e.run_log e.reports
        (S.taken out.old) (S.taken out.new))) }
    // The events of a `play` call are the candidates that the choices of its seed name.
    ensures scheduled { IfOk result (λ e. ¬ (CountRose (F.faults files.old) (F.faults files.new))
        → ¬ (CountRose (S.faults out.old) (S.faults out.new)) →
        IfSome (F.holds files.old) (λ content. (tree : SyntaxTree) (numbers : List ℤ) (workers throttle seed : ℕ) →
        IsToPlay (command_of (words_of words.now)) content tree numbers workers throttle seed →
        HasSeededEvents tree numbers workers throttle seed e.run_log)) }
    // A `play` call finishes: the run of its log is finished, whatever the schedule.
    ensures finishes { IfOk result (λ e. ¬ (CountRose (F.faults files.old) (F.faults files.new))
        → ¬ (CountRose (S.faults out.old) (S.faults out.new)) →
        IfSome (F.holds files.old) (λ content. (tree : SyntaxTree) (numbers : List ℤ) (workers throttle seed : ℕ) →
        IsToPlay (command_of (words_of words.now)) content tree numbers workers throttle seed →
        IsFinishedLog tree numbers e.run_log)) }
    // For every accepted program and input, if the files' content is known and neither count of
    // faults rises, a `serial` call that returns `Ok` reports a cell exactly when the serial
    // elision's dag has two parallel conflicting accesses to it, and otherwise prints exactly the
    // serial elision's output and trap; it returns no run log.
    ensures serial { IfOk result (λ e. ¬ (CountRose (F.faults files.old) (F.faults files.new))
        → ¬ (CountRose (S.faults out.old) (S.faults out.new)) →
        IfSome (F.holds files.old) (λ content. (tree : SyntaxTree) (numbers : List ℤ) →
        IsToRunSerially (command_of (words_of words.now)) content tree numbers →
        ReturnsElision tree numbers e.status e.written e.run_log e.reports (S.taken out.old) (S.taken out.new))) }
    // For every accepted program, if the files' content is known and neither count of faults rises,
    // a `format` call that returns `Ok` has written the canonical text of the program completely.
    ensures formatted { IfOk result (λ e. ¬ (CountRose (F.faults files.old) (F.faults files.new))
        → ¬ (CountRose (S.faults out.old) (S.faults out.new)) →
        IfSome (F.holds files.old) (λ content. (tree : SyntaxTree) → IsToFormat (command_of (words_of words.now)) content tree →
        ReturnsText tree e.status e.written e.run_log e.reports (S.taken out.old) (S.taken out.new))) }
    // For every accepted program, input and record, if the files' content is known and neither count of
    // faults rises, a `check-record` call that returns `Ok` says whether the events of the record are a
    // run of the program, and how far it is, and reports exactly the cells that race in that run's own
    // dag; or it refuses the record, for its first bad line or for the first event that is not allowed.
    ensures checked { IfOk result (λ e. ¬ (CountRose (F.faults files.old) (F.faults files.new))
        → ¬ (CountRose (S.faults out.old) (S.faults out.new)) →
        IfSome (F.holds files.old) (λ content. (tree : SyntaxTree) (numbers : List ℤ) (throttle : ℕ) (saved : List ℕ) →
        IsToCheck (command_of (words_of words.now)) content tree numbers throttle saved →
        ReturnsCheck tree numbers throttle saved (content saved) e.status e.written e.run_log e.reports (S.taken out.old)
        (S.taken out.new))) }
    // The headline with the grid of a wave loop in the place of the serial elision, for `wave`, every
    // number of workers and every limit from the throttling limit of the command on.
    ensures grid { IfOk result (λ e. ¬ (CountRose (F.faults files.old) (F.faults files.new))
        → ¬ (CountRose (S.faults out.old) (S.faults out.new)) →
        IfSome (F.holds files.old) (λ content. (tree : SyntaxTree) (numbers : List ℤ) (limit : ℕ) →
        IsToRunWave (command_of (words_of words.now)) content tree numbers limit →
        ReturnsGrid tree numbers limit e.status e.written e.run_log e.reports (S.taken out.old) (S.taken out.new))) }
    // For every accepted program and input, if the files' content is known and neither count of faults
    // rises, a `span` call that returns `Ok` has written the work, the span and the heaviest path of the
    // program's serial elision, whatever races or trap that has.
    ensures weighed { IfOk result (λ e. ¬ (CountRose (F.faults files.old) (F.faults files.new))
        → ¬ (CountRose (S.faults out.old) (S.faults out.new)) →
        IfSome (F.holds files.old) (λ content. (tree : SyntaxTree) (numbers : List ℤ) →
        IsToWeigh (command_of (words_of words.now)) content tree numbers →
        ReturnsSpan tree numbers e.status e.written e.run_log e.reports (S.taken out.old) (S.taken out.new))) }
    // If the count of the sink's faults does not rise, a `bench` call that returns `Ok` has written
    // the summary of the generated program and input completely.
    ensures benched { IfOk result (λ e. ¬ (CountRose (S.faults out.old) (S.faults out.new)) → (tree : SyntaxTree) (numbers : List ℤ) →
        IsToBench (command_of (words_of words.now)) tree numbers →
        ReturnsSummary tree numbers e.status e.written e.run_log e.reports (S.taken out.old) (S.taken out.new)) }

    // Unless the status is 5, the text of the call's row, or the line of a read that failed, was
    // written completely; the run log and the reports are the row's.
    ensures printed { IfOk result (λ e. e.status ≢ statuses.WRITE_FAULT →
        IsPrinted (command_of (words_of words.now)) (F.holds files.old) (F.faults files.old) (F.faults files.new)
        e.status e.written e.run_log e.reports (S.taken out.old) (S.taken out.new)) }
    // If the status is 5, a prefix of that text was written, and not all of it.
    ensures cut_short { IfOk result (λ e. e.status ≡ statuses.WRITE_FAULT →
        IsCutShort (command_of (words_of words.now)) (F.holds files.old) (F.faults files.old) (F.faults files.new)
        e.written e.run_log e.reports (S.taken out.old) (S.taken out.new)) }
    // After out of memory, nothing was written or a prefix of that text.
    ensures given_up { OnErr result
        (IsGivenUp (command_of (words_of words.now)) (F.holds files.old) (F.faults files.old) (F.faults files.new)
        (S.taken out.old) (S.taken out.new)) }
    // Unless the status is 5, there is a run log exactly if the words are a `run`, a `play`, a `wave` or a
    // `check-record` command, the call was not refused, and no read failed.
    ensures logged { IfOk result (λ e. e.status ≢ statuses.WRITE_FAULT → (is_some e.run_log ≡ true)
        ↔ (KeepsLog (command_of (words_of words.now)) × (e.status ≢ statuses.REFUSED) × (e.status ≢ statuses.READ_FAULT))) }

    // If the status is that of a fault, its count rose in this call. If a count grew, the status is
    // that of a fault.
    ensures read_fault { IfOk result (λ e. e.status ≡ statuses.READ_FAULT → CountRose (F.faults files.old) (F.faults files.new)) }
    ensures write_fault { IfOk result (λ e. e.status ≡ statuses.WRITE_FAULT → CountRose (S.faults out.old) (S.faults out.new)) }
    ensures files_grew { IfOk result (λ e. CountGrew (F.faults files.old) (F.faults files.new)
        → (e.status ≡ statuses.READ_FAULT) ⊎ (e.status ≡ statuses.WRITE_FAULT)) }
    ensures sink_grew { IfOk result (λ e. CountGrew (S.faults out.old) (S.faults out.new) → e.status ≡ statuses.WRITE_FAULT) }
    ensures statuses { IfOk result (λ e. e.status ≤ statuses.WRITE_FAULT) }

    // The files are unchanged, and no count of faults falls.
    ensures counts { (F.faults files.old ≤ F.faults files.new) × (S.faults out.old ≤ S.faults out.new) }
    ensures keeps { F.holds files.new ≡ F.holds files.old }
{
    let outcome = execute(rt, alloc, words, files, gate)?;
    let written = write_text(out, outcome.text.as_slice());
    let status = match written.end {
        WriteEnd::Whole => outcome.status,
        WriteEnd::Failed => WRITE_FAULT,
        WriteEnd::NoMemory => return Err(NoMemory),
    };
    Ok(Ended {
        status,
        run_log: outcome.run_log,
        reports: outcome.reports,
        written: written.count,
    })
}
