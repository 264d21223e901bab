//! The commands.

/// What a call is to do.
#[derive(Clone, Copy)]
pub enum Command<'a> {
    /// Runs a source on an input, with `workers` workers and at most `throttle` iterations alive.
    Run {
        source: &'a str,
        input: &'a str,
        workers: u32,
        throttle: u32,
        /// Whether the lines of the run log are printed after the text.
        record: bool,
    },
    /// Plays a source on an input on one thread, by the schedule that the seed chooses, with at
    /// most `workers` instances running and at most `throttle` iterations alive.
    Play {
        source: &'a str,
        input: &'a str,
        workers: u32,
        throttle: u32,
        seed: u32,
        /// Whether the lines of the run log are printed after the text.
        record: bool,
    },
    /// Runs a source on an input serially.
    Serial {
        source: &'a str,
        input: &'a str,
    },
    /// Finds the work, the span and a heaviest path of the serial elision of a source on an input.
    Span {
        source: &'a str,
        input: &'a str,
    },
    /// Prints the canonical text of a source.
    Format {
        source: &'a str,
    },
    /// Runs a generated workload.
    Bench {
        seed: u32,
        size: u32,
    },
    /// Checks whether a saved run log is a run of a source on an input, with at most `throttle`
    /// iterations alive.
    CheckRecord {
        source: &'a str,
        input: &'a str,
        /// The file of the run log.
        record: &'a str,
        throttle: u32,
    },
    /// Lowers a wave loop and runs it on an input, with `workers` workers and at most `throttle`
    /// iterations alive.
    Wave {
        source: &'a str,
        input: &'a str,
        workers: u32,
        throttle: u32,
    },
}
