//! Command lines with the commands that they ask for.

use cilkp_words::commands::Command;
use cilkp_words::words::read_words;
use pipe_model::memory::NoMemory;
use std::alloc::Global;

// Lines of words, most of which were drawn at random from a list, and their commands: the name, the
// files, the numbers, and whether a log is asked for. A line that asks for no command has none.
const LINES: [(&str, &str); 53] = [
    ("run b -", "run b - 4 16"),
    ("run a a", "run a a 4 16"),
    ("run -- a.pipe -", "run a.pipe - 4 16"),
    ("serial a b", "serial a b"),
    ("run b b", "run b b 4 16"),
    ("serial b a.pipe", "serial b a.pipe"),
    ("bench --size=3", "bench 1 3"),
    ("run a a.pipe", "run a a.pipe 4 16"),
    ("bench --size 8", "bench 1 8"),
    ("run a - --throttle=64", "run a - 4 64"),
    ("serial b -", "serial b -"),
    ("run b --throttle=3 b", "run b b 4 3"),
    ("run --workers 1 - b", "run - b 1 4"),
    ("run b --throttle 3 b", "run b b 4 3"),
    ("run a --throttle=64 b", "run a b 4 64"),
    ("serial a b --", "serial a b"),
    ("bench --seed 0", "bench 0 1000"),
    ("bench --seed 40001", "bench 40001 1000"),
    ("serial a.pipe -", "serial a.pipe -"),
    ("run - b", "run - b 4 16"),
    ("format  --size a.pipe", ""),
    ("run --size=5 --throttle 65535 a a", ""),
    ("run b --workers 40001 b", ""),
    ("run b - --workers=08 --seed", ""),
    ("run b 64 a.pipe", ""),
    ("serial - a 64", ""),
    ("run a - a.pipe --workers 08", ""),
    ("run --throttle=64 - a.pipe -", ""),
    ("run b --workers 64 -- a.pipe -5", ""),
    ("bench --seed=1 -", ""),
    ("run - --throttle=08 a", ""),
    ("bench --size=65 ", ""),
    ("run b 08 b --workers 64 --seed", ""),
    ("run run b b --workers 65", ""),
    ("format a 65", ""),
    ("run - --size a --throttle=64", ""),
    ("run serial a.pipe b --throttle 3 a.pipe", ""),
    ("-x b", ""),
    ("--seed=0 --workers 65 run b -", ""),
    ("run b b a --throttle=65535", ""),
    ("run - --throttle=65 65 --throttle a", ""),
    ("bench  --seed=0 --seed=0", ""),
    ("play b --workers=2 a", "play b a 2 8 1"),
    (
        "play a --record - --seed 65535",
        "play a - 4 16 65535 record",
    ),
    ("run --record a b", "run a b 4 16 record"),
    ("play a b --size 3", ""),
    ("serial a b --record", ""),
    ("check-record --throttle 3 a b c", "check-record a b c 3"),
    ("check-record a b - ", ""),
    ("wave a --workers=2 -", "wave a - 2 8"),
    ("wave a b --record", ""),
    ("span a.pipe -", "span a.pipe -"),
    ("span a b --workers 1", ""),
];

// The words of a line, with one space between them.
fn words(alloc: Global, line: &str) -> Result<Vec<String>, NoMemory> {
    let mut words = Vec::new(alloc);
    for word in line.split(' ') {
        words.push(String::from_str(alloc, word)?)?;
    }
    Ok(words)
}

fn push_files(text: &mut String, files: &[&str]) -> Result<(), NoMemory> {
    for file in files {
        write!(text, " {file}")?;
    }
    Ok(())
}

fn push_numbers(text: &mut String, numbers: &[u32]) -> Result<(), NoMemory> {
    for number in numbers {
        write!(text, " {number}")?;
    }
    Ok(())
}

// A command's name, files and numbers, and whether a log is asked for, in one line.
fn line_of(
    alloc: Global,
    name: &str,
    files: &[&str],
    numbers: &[u32],
    record: bool,
) -> Result<String, NoMemory> {
    let mut text = String::from_str(alloc, name)?;
    push_files(&mut text, files)?;
    push_numbers(&mut text, numbers)?;
    text.push_str(if record { " record" } else { "" })?;
    Ok(text)
}

// The line of a command that runs a pipeline with workers; empty for another command.
fn line_with_workers(alloc: Global, command: Command) -> Result<String, NoMemory> {
    match command {
        Command::Run {
            source,
            input,
            workers,
            throttle,
            record,
        } => line_of(alloc, "run", &[source, input], &[workers, throttle], record),
        Command::Play {
            source,
            input,
            workers,
            throttle,
            seed,
            record,
        } => line_of(
            alloc,
            "play",
            &[source, input],
            &[workers, throttle, seed],
            record,
        ),
        Command::Wave {
            source,
            input,
            workers,
            throttle,
        } => line_of(alloc, "wave", &[source, input], &[workers, throttle], false),
        _ => Ok(String::new(alloc)),
    }
}

fn line_of_command(alloc: Global, command: Command) -> Result<String, NoMemory> {
    match command {
        Command::Run { .. } | Command::Play { .. } | Command::Wave { .. } => {
            line_with_workers(alloc, command)
        }
        Command::Serial { source, input } => line_of(alloc, "serial", &[source, input], &[], false),
        Command::Span { source, input } => line_of(alloc, "span", &[source, input], &[], false),
        Command::Format { source } => line_of(alloc, "format", &[source], &[], false),
        Command::Bench { seed, size } => line_of(alloc, "bench", &[], &[seed, size], false),
        Command::CheckRecord {
            source,
            input,
            record,
            throttle,
        } => line_of(
            alloc,
            "check-record",
            &[source, input, record],
            &[throttle],
            false,
        ),
    }
}

// The command of a line; empty if it asks for none.
fn asked(alloc: Global, line: &str) -> Result<String, NoMemory> {
    let words = words(alloc, line)?;
    match read_words(alloc, words.as_slice())? {
        Some(command) => line_of_command(alloc, command),
        None => Ok(String::new(alloc)),
    }
}

// Whether a line asks for this command.
fn is_asked(alloc: Global, line: &str, wanted: &str) -> bool {
    match asked(alloc, line) {
        Ok(found) => found.as_str() == wanted,
        Err(NoMemory) => false,
    }
}

// The first line that asks for another command.
fn first_other(alloc: Global, lines: &[(&str, &str)]) -> Option<usize> {
    for (index, (line, wanted)) in lines.iter().enumerate() {
        if !is_asked(alloc, line, wanted) {
            return Some(index);
        }
    }
    None
}

fn first_other_of_lines(alloc: Global) -> Option<usize> {
    first_other(alloc, &LINES)
}

#[test]
fn lines_have_their_commands(rt: HostRuntime) {
    let other = first_other_of_lines(rt.alloc());
    assert!(rt; other.is_none(), "{other:?}");
}
