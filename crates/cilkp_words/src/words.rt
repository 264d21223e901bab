//! Which command the words of a call ask for.

ghost use Rattle.std.specs.Prelude.{◌≡◌, ◌≤◌, IfOk, IfSome, option_and_then, option_map};
ghost use Rattle.clap.specs.Matches.{found_of};
ghost use Rattle.clap.specs.Simple.{subcommand_rows_of};
ghost use Rattle.clap.specs.Walk.{first_of, rows_of};
ghost use Rattle.cilkp_words.specs.CommandRanges.{IsInRange};
ghost use Rattle.cilkp_words.specs.Commands.{command_data};
ghost use Rattle.cilkp_words.specs.CommandWords.{bench_of, check_record_of, command_named, command_of, files_of, format_of, play_of};
ghost use Rattle.cilkp_words.specs.CommandWords.{records, run_of, run_words_of, seed_of, serial_of, sizes_of, span_of, throttle_of};
ghost use Rattle.cilkp_words.specs.CommandWords.{wave_of, words_of, workers_of};
ghost use Rattle.cilkp_words.specs.RunWordsData.{run_words_data};
ghost use Rattle.cilkp_words.specs.declared.ranges.TheConstants as ranges;

use crate::commands::Command;
use crate::line::command_line;
use crate::option_numbers::number_or;
use crate::ranges::{
    DEFAULT_SEED, DEFAULT_SIZE, DEFAULT_WORKERS, MOST_THROTTLE, MOST_WORKERS, THROTTLE_PER_WORKER,
};
use clap::ArgMatches;
use clap::error::ErrorKind;
use pipe_gen::choices::MOST_SEED;
use pipe_gen::workload::MOST_SIZE;
use pipe_model::memory::NoMemory;
use std::alloc::Global;

// The word of an argument.
fn word<'a>(matches: &ArgMatches<'a>, name: &str) -> Option<&'a str>
    ensures { option_map (λ s. s.now) result ≡ first_of name.now (rows_of (found_of matches.now)) }
{
    matches.get_str(name)
}

fn workers<'a>(matches: &ArgMatches<'a>) -> Option<u32>
    ensures { result ≡ workers_of (rows_of (found_of matches.now)) }
{
    number_or(DEFAULT_WORKERS, 1, MOST_WORKERS, word(matches, "workers"))
}

// The throttling limit, with the default for this many workers.
fn throttle<'a>(workers: u32, matches: &ArgMatches<'a>) -> Option<u32>
    requires bounded { workers ≤ ranges.MOST_WORKERS }
    ensures { result ≡ throttle_of workers (rows_of (found_of matches.now)) }
{
    let default = THROTTLE_PER_WORKER * workers;
    number_or(default, 1, MOST_THROTTLE, word(matches, "throttle"))
}

fn seed<'a>(matches: &ArgMatches<'a>) -> Option<u32>
    ensures { result ≡ seed_of (rows_of (found_of matches.now)) }
{
    number_or(DEFAULT_SEED, 0, MOST_SEED, word(matches, "seed"))
}

// Whether the flag `--record` is given.
fn records<'a>(matches: &ArgMatches<'a>) -> bool
    ensures { result ≡ records (rows_of (found_of matches.now)) }
{
    word(matches, "record") == Some("true")
}

// The names of the source and the input.
fn files<'a>(matches: &ArgMatches<'a>) -> Option<(&'a str, &'a str)>
    ensures { option_map (λ f. (f.0.now, f.1.now)) result ≡ files_of (rows_of (found_of matches.now)) }
{
    let source = word(matches, "source")?;
    let input = word(matches, "input")?;
    Some((source, input))
}

// How many workers run a loop, and how many of its iterations are alive.
fn sizes<'a>(matches: &ArgMatches<'a>) -> Option<(u32, u32)>
    ensures { result ≡ sizes_of (rows_of (found_of matches.now)) }
{
    let workers = workers(matches)?;
    let throttle = throttle(workers, matches)?;
    Some((workers, throttle))
}

// What `run`, `play` and `wave` have in common.
#[derive(Clone, Copy)]
struct RunWords<'a> {
    source: &'a str,
    input: &'a str,
    workers: u32,
    throttle: u32,
}

fn run_words<'a>(matches: &ArgMatches<'a>) -> Option<RunWords<'a>>
    ensures { option_map run_words_data result ≡ run_words_of (rows_of (found_of matches.now)) }
{
    let (source, input) = files(matches)?;
    let (workers, throttle) = sizes(matches)?;
    Some(RunWords {
        source,
        input,
        workers,
        throttle,
    })
}

fn run<'a>(matches: &ArgMatches<'a>) -> Option<Command<'a>>
    ensures { option_map command_data result ≡ run_of (rows_of (found_of matches.now)) }
{
    let words = run_words(matches)?;
    Some(Command::Run {
        source: words.source,
        input: words.input,
        workers: words.workers,
        throttle: words.throttle,
        record: records(matches),
    })
}

fn play<'a>(matches: &ArgMatches<'a>) -> Option<Command<'a>>
    ensures { option_map command_data result ≡ play_of (rows_of (found_of matches.now)) }
{
    let words = run_words(matches)?;
    let seed = seed(matches)?;
    Some(Command::Play {
        source: words.source,
        input: words.input,
        workers: words.workers,
        throttle: words.throttle,
        seed,
        record: records(matches),
    })
}

fn wave<'a>(matches: &ArgMatches<'a>) -> Option<Command<'a>>
    ensures { option_map command_data result ≡ wave_of (rows_of (found_of matches.now)) }
{
    let words = run_words(matches)?;
    Some(Command::Wave {
        source: words.source,
        input: words.input,
        workers: words.workers,
        throttle: words.throttle,
    })
}

fn serial<'a>(matches: &ArgMatches<'a>) -> Option<Command<'a>>
    ensures { option_map command_data result ≡ serial_of (rows_of (found_of matches.now)) }
{
    let (source, input) = files(matches)?;
    Some(Command::Serial { source, input })
}

fn span<'a>(matches: &ArgMatches<'a>) -> Option<Command<'a>>
    ensures { option_map command_data result ≡ span_of (rows_of (found_of matches.now)) }
{
    let (source, input) = files(matches)?;
    Some(Command::Span { source, input })
}

fn format<'a>(matches: &ArgMatches<'a>) -> Option<Command<'a>>
    ensures { option_map command_data result ≡ format_of (rows_of (found_of matches.now)) }
{
    let source = word(matches, "source")?;
    Some(Command::Format { source })
}

fn bench<'a>(matches: &ArgMatches<'a>) -> Option<Command<'a>>
    ensures { option_map command_data result ≡ bench_of (rows_of (found_of matches.now)) }
{
    let seed = seed(matches)?;
    let size = number_or(DEFAULT_SIZE, 1, MOST_SIZE, word(matches, "size"))?;
    Some(Command::Bench { seed, size })
}

fn check_record<'a>(matches: &ArgMatches<'a>) -> Option<Command<'a>>
    ensures { option_map command_data result ≡ check_record_of (rows_of (found_of matches.now)) }
{
    let (source, input) = files(matches)?;
    let record = word(matches, "record")?;
    let throttle = number_or(MOST_THROTTLE, 1, MOST_THROTTLE, word(matches, "throttle"))?;
    Some(Command::CheckRecord {
        source,
        input,
        record,
        throttle,
    })
}

// The command of the subcommand with this name.
fn command_named<'a>(name: &str, matches: &ArgMatches<'a>) -> Option<Command<'a>>
    ensures { option_map command_data result ≡ command_named name.now (rows_of (found_of matches.now)) }
{
    match name {
        "run" => run(matches),
        "play" => play(matches),
        "serial" => serial(matches),
        "format" => format(matches),
        "bench" => bench(matches),
        "check-record" => check_record(matches),
        "wave" => wave(matches),
        "span" => span(matches),
        _ => None,
    }
}

// The command of the subcommand that was given, if there is one.
fn command_in<'a>(matches: &ArgMatches<'a>) -> Option<Command<'a>>
    ensures { option_map command_data result ≡ option_and_then (λ p. command_named p.0 p.1) (subcommand_rows_of matches.now) }
{
    let (name, below) = matches.subcommand()?;
    command_named(name, below)
}

/// Returns the command that the words ask for; `None` if they are no command. Calls for help or a
/// version are none, and so are words with a number that is not plain decimal or not in its range.
/// Returns an error only if memory runs out.
pub fn read_words<'a>(alloc: Global, words: &'a [String]) -> Result<Option<Command<'a>>, NoMemory>
    ensures command { IfOk result (λ found. option_map command_data found ≡ command_of (words_of words.now)) }
    ensures ranges { IfOk result (λ found. IfSome (option_map command_data found) IsInRange) }
{
    match command_line(alloc)?.try_get_matches_from(words) {
        Ok(matches) => {
            let command = command_in(&matches);
            drop(matches);
            Ok(command)
        }
        Err(error) => {
            if error.kind() == ErrorKind::OutOfMemory {
                drop(error);
                return Err(NoMemory);
            }
            drop(error);
            Ok(None)
        }
    }
}
