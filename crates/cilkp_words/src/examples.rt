//! Worked command lines, which the checker computes from the definitions.

ghost use Rattle.cilkp_words.specs.WordExamples.{CallsForHelp, CheckedLines, FileNames, MisplacedOptions, OptionNumbers, OtherCommands};
ghost use Rattle.cilkp_words.specs.WordExamples.{PlayedLines, RecordedLines, SeparateAndJoinedValues, WaveLines};

/// The value of an option is the next word or joined by `=`, and options may be anywhere among the
/// files.
pub fn separate_and_joined_values()
    ensures { SeparateAndJoinedValues }
{}

/// An option before the command, twice, without a value, abbreviated, or of another command is
/// refused.
pub fn misplaced_options()
    ensures { MisplacedOptions }
{}

/// The number of an option is plain decimal and within its range.
pub fn option_numbers()
    ensures { OptionNumbers }
{}

/// Words after `--` are file names, and so are `-` and the empty word.
pub fn file_names()
    ensures { FileNames }
{}

/// No command, and calls for help or a version, are refused.
pub fn calls_for_help()
    ensures { CallsForHelp }
{}

/// The commands `serial`, `span`, `format` and `bench`.
pub fn other_commands()
    ensures { OtherCommands }
{}

/// The command `play`.
pub fn played_lines()
    ensures { PlayedLines }
{}

/// The flag `--record` of `run` and `play` may be anywhere among the files, once, without a value.
pub fn recorded_lines()
    ensures { RecordedLines }
{}

/// The command `check-record`.
pub fn checked_lines()
    ensures { CheckedLines }
{}

/// The command `wave`.
pub fn wave_lines()
    ensures { WaveLines }
{}
