//! The command line, as `clap` is given it.

ghost use Rattle.std.specs.Prelude.{◌≡◌, ◌∷◌, [], IfOk, codes, false};
ghost use Rattle.clap.specs.Simple.{App, Shape, app_of, new_shape, shape_of, with_subcommand};
ghost use Rattle.clap.specs.Walk.{Rule, rule_of};
ghost use Rattle.clap.specs.declared.builder.command.Command.TheViews.{out-Command as fields_of};
ghost use Rattle.cilkp_words.specs.CommandLine.{bare_line, bench_shape, check_record_shape, command_line, file_rule, flag_rule};
ghost use Rattle.cilkp_words.specs.CommandLine.{format_shape, option_rule, play_shape, run_shape, serial_shape, span_shape, wave_shape};
ghost use Rattle.cilkp_words.specs.CommandLine.{with_argument};

use clap::{Arg, ArgAction, Command};
use std::alloc::{AllocError, Global};

// The name of a file, which must be given.
fn file<'a>(alloc: Global, name: &'static str) -> Arg<'a>
    ensures rule { rule_of result ≡ file_rule name.now }
    ensures local { result.global ≡ false }
{
    Arg::new(alloc, name).required(true)
}

// An option with one value.
fn option<'a>(alloc: Global, name: &'static str) -> Arg<'a>
    ensures rule { rule_of result ≡ option_rule name.now }
    ensures local { result.global ≡ false }
{
    Arg::new(alloc, name).long(name)
}

// A flag without a value.
fn flag<'a>(alloc: Global, name: &'static str) -> Arg<'a>
    ensures rule { rule_of result ≡ flag_rule name.now }
    ensures local { result.global ≡ false }
{
    Arg::new(alloc, name).long(name).action(ArgAction::SetTrue)
}

// Adds an argument, unless memory ran out for the command.
fn with<'a>(
    command: Result<Command<'a>, AllocError>,
    argument: Arg<'a>,
) -> Result<Command<'a>, AllocError>
    requires command { IfOk command (λ c. (fields_of c).has_globals ≡ false) }
    requires argument { argument.global ≡ false }
    ensures shape { (s : Shape) (r : Rule) → IfOk command.entry (λ c. shape_of c ≡ s) → rule_of argument.entry ≡ r
        → IfOk result (λ c. shape_of c ≡ with_argument s r) }
    ensures local { IfOk result (λ c. (fields_of c).has_globals ≡ false) }
{
    match command {
        Ok(command) => command.arg(argument),
        Err(error) => {
            drop(argument);
            Err(error)
        }
    }
}

// Adds the files of a program and its input.
fn with_files<'a>(
    alloc: Global,
    command: Result<Command<'a>, AllocError>,
) -> Result<Command<'a>, AllocError>
    requires { IfOk command (λ c. (fields_of c).has_globals ≡ false) }
    ensures shape { (s : Shape) → IfOk command.entry (λ c. shape_of c ≡ s) → IfOk result (λ c. shape_of c ≡ with_argument
        (with_argument s (file_rule (codes "source"))) (file_rule (codes "input"))) }
    ensures local { IfOk result (λ c. (fields_of c).has_globals ≡ false) }
{
    let command = with(command, file(alloc, "source"));
    with(command, file(alloc, "input"))
}

// Adds the number of workers and the throttling limit.
fn with_limits<'a>(
    alloc: Global,
    command: Result<Command<'a>, AllocError>,
) -> Result<Command<'a>, AllocError>
    requires { IfOk command (λ c. (fields_of c).has_globals ≡ false) }
    ensures shape { (s : Shape) → IfOk command.entry (λ c. shape_of c ≡ s) → IfOk result (λ c. shape_of c ≡ with_argument
        (with_argument s (option_rule (codes "workers"))) (option_rule (codes "throttle"))) }
    ensures local { IfOk result (λ c. (fields_of c).has_globals ≡ false) }
{
    let command = with(command, option(alloc, "workers"));
    with(command, option(alloc, "throttle"))
}

// A command without arguments.
fn named<'a>(alloc: Global, name: &'static str) -> Result<Command<'a>, AllocError>
    ensures shape { IfOk result (λ c. shape_of c ≡ new_shape name.now) }
    ensures local { IfOk result (λ c. (fields_of c).has_globals ≡ false) }
{
    Ok(Command::new(alloc, name))
}

fn run<'a>(alloc: Global) -> Result<Command<'a>, AllocError>
    ensures shape { IfOk result (λ c. shape_of c ≡ run_shape) }
    ensures local { IfOk result (λ c. (fields_of c).has_globals ≡ false) }
{
    let command = with_files(alloc, named(alloc, "run"));
    let command = with_limits(alloc, command);
    with(command, flag(alloc, "record"))
}

fn play<'a>(alloc: Global) -> Result<Command<'a>, AllocError>
    ensures shape { IfOk result (λ c. shape_of c ≡ play_shape) }
    ensures local { IfOk result (λ c. (fields_of c).has_globals ≡ false) }
{
    let command = with_files(alloc, named(alloc, "play"));
    let command = with_limits(alloc, command);
    let command = with(command, option(alloc, "seed"));
    with(command, flag(alloc, "record"))
}

fn serial<'a>(alloc: Global) -> Result<Command<'a>, AllocError>
    ensures shape { IfOk result (λ c. shape_of c ≡ serial_shape) }
    ensures local { IfOk result (λ c. (fields_of c).has_globals ≡ false) }
{
    with_files(alloc, named(alloc, "serial"))
}

fn format<'a>(alloc: Global) -> Result<Command<'a>, AllocError>
    ensures shape { IfOk result (λ c. shape_of c ≡ format_shape) }
    ensures local { IfOk result (λ c. (fields_of c).has_globals ≡ false) }
{
    with(named(alloc, "format"), file(alloc, "source"))
}

fn bench<'a>(alloc: Global) -> Result<Command<'a>, AllocError>
    ensures shape { IfOk result (λ c. shape_of c ≡ bench_shape) }
    ensures local { IfOk result (λ c. (fields_of c).has_globals ≡ false) }
{
    let command = with(named(alloc, "bench"), option(alloc, "seed"));
    with(command, option(alloc, "size"))
}

fn check_record<'a>(alloc: Global) -> Result<Command<'a>, AllocError>
    ensures shape { IfOk result (λ c. shape_of c ≡ check_record_shape) }
    ensures local { IfOk result (λ c. (fields_of c).has_globals ≡ false) }
{
    let command = with_files(alloc, named(alloc, "check-record"));
    let command = with(command, file(alloc, "record"));
    with(command, option(alloc, "throttle"))
}

fn wave<'a>(alloc: Global) -> Result<Command<'a>, AllocError>
    ensures shape { IfOk result (λ c. shape_of c ≡ wave_shape) }
    ensures local { IfOk result (λ c. (fields_of c).has_globals ≡ false) }
{
    let command = with_files(alloc, named(alloc, "wave"));
    with_limits(alloc, command)
}

fn span<'a>(alloc: Global) -> Result<Command<'a>, AllocError>
    ensures shape { IfOk result (λ c. shape_of c ≡ span_shape) }
    ensures local { IfOk result (λ c. (fields_of c).has_globals ≡ false) }
{
    with_files(alloc, named(alloc, "span"))
}

// The command line without its subcommands.
fn bare_line<'a>(alloc: Global) -> Command<'a>
    ensures { app_of result ≡ bare_line }
{
    Command::new(alloc, "cilkp")
        .no_binary_name(true)
        .disable_help_flag(true)
        .disable_help_subcommand(true)
}

// Adds a subcommand, unless memory ran out for it or for the line.
fn with_command<'a>(
    line: Result<Command<'a>, AllocError>,
    command: Result<Command<'a>, AllocError>,
) -> Result<Command<'a>, AllocError>
    requires { IfOk command (λ c. (fields_of c).has_globals ≡ false) }
    ensures { (a : App) (s : Shape) → IfOk line.entry (λ l. app_of l ≡ a) → IfOk command.entry (λ c. shape_of c ≡ s)
        → IfOk result (λ l. app_of l ≡ with_subcommand a s) }
{
    let line = match line {
        Ok(line) => line,
        Err(error) => {
            drop(command);
            return Err(error);
        }
    };
    match command {
        Ok(command) => line.subcommand(command),
        Err(error) => {
            drop(line);
            Err(error)
        }
    }
}

/// Returns the command line with its subcommands. Returns an error only if memory runs out.
pub fn command_line<'a>(alloc: Global) -> Result<Command<'a>, AllocError>
    ensures { IfOk result (λ c. app_of c ≡ command_line) }
{
    let line = with_command(Ok(bare_line(alloc)), run(alloc));
    let line = with_command(line, play(alloc));
    let line = with_command(line, serial(alloc));
    let line = with_command(line, format(alloc));
    let line = with_command(line, bench(alloc));
    let line = with_command(line, check_record(alloc));
    let line = with_command(line, wave(alloc));
    with_command(line, span(alloc))
}
