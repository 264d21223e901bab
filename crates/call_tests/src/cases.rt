// Calls over files and sinks in memory, for the tests of the top call.

use cilkp_program::call::{Ended, cilkp};
use pipe_io::mem_files::MemFiles;
use pipe_io::mem_sink::MemSink;
use pipe_model::event::RunLog;
use pipe_model::list::Bytes;
use pipe_model::memory::NoMemory;
use pipe_model::node::NodeId;
use pipe_worker::gate::{Gate, OpenGate};
use pipe_worker::hold::HoldGate;
use run_record::logged_run::LoggedRun;
use std::alloc::{AllocError, Global};
use std::process::Abort;
use std::sync::Wait;
use std::thread::Threads;

// The words of calls.
pub const RUN: &[&str] = &["run", "a.pipe", "a.in", "--workers", "1"];

pub const RUN_BY_FOUR: &[&str] = &["run", "a.pipe", "a.in", "--workers", "4", "--throttle", "8"];

pub const SERIAL: &[&str] = &["serial", "a.pipe", "a.in"];

pub const FORMAT: &[&str] = &["format", "a.pipe"];

// The gate of a call: the open one, or one that holds an instance. All calls have a gate of this type, so that
// the runtime is compiled once.
#[derive(Drop)]
pub enum CallGate {
    Open(OpenGate),
    Hold(HoldGate),
}

impl CallGate {
    // Whether an instance was held until the other was at the gate.
    pub fn met(&self) -> bool {
        match self {
            CallGate::Open(_) => false,
            CallGate::Hold(gate) => gate.met(),
        }
    }
}

impl Gate for CallGate {
    fn at<R: Wait>(&self, rt: &R, worker: u32, node: NodeId) {
        match self {
            CallGate::Open(gate) => gate.at(rt, worker, node),
            CallGate::Hold(gate) => gate.at(rt, worker, node),
        }
    }
}

// The events of a run and its columns, if there is a log and memory to merge it.
pub fn merged(alloc: Global, log: Option<LoggedRun>) -> Option<RunLog> {
    log?.into_run_log(alloc).ok()
}

// A call to test, and how it is to end: its words, the texts of the source `a.pipe`, the input `a.in` and
// the record `a.log`, the numbers of the reads and of the writes that fail, its status and what its sink
// takes. Its files serve seven bytes a read, and its sink takes two a write.
#[derive(Clone, Copy)]
pub struct Case<'a> {
    pub words: &'a [&'a str],
    pub source: &'a str,
    pub input: &'a str,
    pub record: &'a str,
    pub read_fails: &'a [u32],
    pub write_fails: &'a [u32],
    pub status: u8,
    pub text: &'a str,
}

// A run with one worker, over empty files.
pub const BLANK: Case<'static> = Case {
    words: RUN,
    source: "",
    input: "",
    record: "",
    read_fails: &[],
    write_fails: &[],
    status: 0,
    text: "",
};

// A call with these words over a source, with status 0 and without a text.
pub fn case_of<'a>(words: &'a [&'a str], source: &'a str) -> Case<'a> {
    Case {
        words,
        source,
        ..BLANK
    }
}

fn push_words(words: &mut Vec<String>, alloc: Global, texts: &[&str]) -> Result<(), NoMemory> {
    for text in texts {
        words.push(String::from_str(alloc, text)?)?;
    }
    Ok(())
}

pub fn push_file(
    files: &mut Vec<(String, Bytes)>,
    alloc: Global,
    name: &str,
    text: &str,
) -> Result<(), NoMemory> {
    let bytes = Bytes::from_vec(text.as_bytes().to_vec(alloc)?);
    files.push((String::from_str(alloc, name)?, bytes))?;
    Ok(())
}

// What a call is made of, besides its sink.
#[derive(Drop)]
struct Parts {
    words: Vec<String>,
    files: Vec<(String, Bytes)>,
    read_fails: Vec<u32>,
    write_fails: Vec<u32>,
}

impl Parts {
    fn new(alloc: Global) -> Self {
        Parts {
            words: Vec::new(alloc),
            files: Vec::new(alloc),
            read_fails: Vec::new(alloc),
            write_fails: Vec::new(alloc),
        }
    }

    fn push(&mut self, alloc: Global, case: &Case<'_>) -> Result<(), NoMemory> {
        push_words(&mut self.words, alloc, case.words)?;
        push_file(&mut self.files, alloc, "a.pipe", case.source)?;
        push_file(&mut self.files, alloc, "a.in", case.input)?;
        push_file(&mut self.files, alloc, "a.log", case.record)?;
        self.read_fails.extend_from_slice(case.read_fails)?;
        self.write_fails.extend_from_slice(case.write_fails)?;
        Ok(())
    }

    fn into_call(self, alloc: Global) -> Call {
        Call {
            words: self.words,
            files: MemFiles::new(self.files, 7, self.read_fails),
            sink: MemSink::new(alloc, 2, self.write_fails),
        }
    }
}

// A call that is set up, with its words, files and sink.
#[derive(Drop)]
pub struct Call {
    words: Vec<String>,
    files: MemFiles,
    sink: MemSink,
}

// Makes the files, the words and the sink, but not the call.
pub fn set_up(alloc: Global, case: &Case<'_>) -> Result<Call, NoMemory> {
    let mut parts = Parts::new(alloc);
    match parts.push(alloc, case) {
        Ok(()) => Ok(parts.into_call(alloc)),
        Err(NoMemory) => Err(NoMemory),
    }
}

// Whether a call that ended, and what its sink took, are as the case says.
pub fn is_end(ended: &Ended, taken: &[u8], case: &Case<'_>) -> bool {
    ended.status == case.status
        && ended.written == case.text.len() as u64
        && taken == case.text.as_bytes()
}

impl Call {
    // Makes the call, with a gate for its workers.
    pub fn make_at(
        &mut self,
        rt: &(impl Threads + Wait + Sync),
        alloc: Global,
        gate: &CallGate,
    ) -> Result<Ended, NoMemory> {
        cilkp(
            rt,
            alloc,
            self.words.as_slice(),
            &mut self.files,
            &mut self.sink,
            gate,
        )
    }

    // Makes the call.
    pub fn make(
        &mut self,
        rt: &(impl Threads + Wait + Sync),
        alloc: Global,
    ) -> Result<Ended, NoMemory> {
        self.make_at(rt, alloc, &CallGate::Open(OpenGate))
    }

    // What the sink took.
    pub fn taken(&self) -> &[u8] {
        self.sink.taken().as_slice()
    }

    fn ends(
        &mut self,
        rt: &(impl Threads + Wait + Sync),
        alloc: Global,
        gate: &CallGate,
        case: &Case<'_>,
    ) -> bool {
        match self.make_at(rt, alloc, gate) {
            Ok(ended) => is_end(&ended, self.taken(), case),
            Err(NoMemory) => false,
        }
    }
}

// Makes the call with these words over a source, with a gate for its workers.
pub fn ended_at(
    rt: &(impl Threads + Wait + Sync),
    alloc: Global,
    gate: &CallGate,
    words: &[&str],
    source: &str,
) -> Result<Ended, NoMemory> {
    match set_up(alloc, &case_of(words, source)) {
        Ok(mut call) => call.make_at(rt, alloc, gate),
        Err(NoMemory) => Err(NoMemory),
    }
}

// The same without a gate.
pub fn ended(
    rt: &(impl Threads + Wait + Sync),
    alloc: Global,
    words: &[&str],
    source: &str,
) -> Result<Ended, NoMemory> {
    ended_at(rt, alloc, &CallGate::Open(OpenGate), words, source)
}

// Whether the call of a case, with a gate for its workers, ends as the case says.
pub fn ends_at(
    rt: &(impl Threads + Wait + Sync),
    alloc: Global,
    gate: &CallGate,
    case: &Case<'_>,
) -> bool {
    match set_up(alloc, case) {
        Ok(mut call) => call.ends(rt, alloc, gate, case),
        Err(NoMemory) => false,
    }
}

// The same without a gate.
pub fn ends(rt: &(impl Threads + Wait + Sync), alloc: Global, case: &Case<'_>) -> bool {
    ends_at(rt, alloc, &CallGate::Open(OpenGate), case)
}

// The first case that ends otherwise.
pub fn first_other(
    rt: &(impl Threads + Wait + Sync),
    alloc: Global,
    cases: &[Case<'_>],
) -> Option<usize> {
    for (index, case) in cases.iter().enumerate() {
        if !ends(rt, alloc, case) {
            return Some(index);
        }
    }
    None
}

// Words, a source, and the status and text of their call.
pub type CallRow<'a> = (&'a [&'a str], &'a str, u8, &'a str);

// Whether the call of a row ends as the row says.
pub fn call_ends(rt: &(impl Threads + Wait + Sync), alloc: Global, row: &CallRow<'_>) -> bool {
    let (words, source, status, text) = *row;
    ends(
        rt,
        alloc,
        &Case {
            status,
            text,
            ..case_of(words, source)
        },
    )
}

// The first row whose call ends otherwise.
pub fn first_other_call(
    rt: &(impl Threads + Wait + Sync),
    alloc: Global,
    rows: &[CallRow<'_>],
) -> Option<usize> {
    for (index, row) in rows.iter().enumerate() {
        if !call_ends(rt, alloc, row) {
            return Some(index);
        }
    }
    None
}

// Whether the call with these words, over a source that is made, ends like this. It does not if memory ran out
// before.
pub fn made_source_ends(
    rt: &(impl Threads + Wait + Sync),
    alloc: Global,
    words: &[&str],
    source: Result<String, AllocError>,
    status: u8,
    text: &str,
) -> bool {
    match source {
        Ok(source) => call_ends(rt, alloc, &(words, source.as_str(), status, text)),
        Err(_) => false,
    }
}

// The limits and the rest of a source, and the status and text of its call.
pub type Row<'a> = ([u32; 4], &'a str, u8, &'a str);

// A source of `rest` after these limits.
pub fn source(alloc: Global, limits: [u32; 4], rest: &str) -> Result<String, AllocError> {
    let [iterations, stages, steps, emits] = limits;
    format!(in alloc;
        "limits iterations {iterations}, stages {stages}, steps {steps}, emits {emits}; {rest}"
    )
}

// Whether the call with these words, over the source of the row, ends as the row says.
pub fn row_ends(
    rt: &(impl Threads + Wait + Sync),
    alloc: Global,
    words: &[&str],
    row: &Row<'_>,
) -> bool {
    let (limits, rest, status, text) = *row;
    made_source_ends(rt, alloc, words, source(alloc, limits, rest), status, text)
}

// The first row for which that is not so.
pub fn first_other_row(
    rt: &(impl Threads + Wait + Sync),
    alloc: Global,
    words: &[&str],
    rows: &[Row<'_>],
) -> Option<usize> {
    for (index, row) in rows.iter().enumerate() {
        if !row_ends(rt, alloc, words, row) {
            return Some(index);
        }
    }
    None
}

// Fails the test if there is a row of a table that is otherwise than the table says.
pub fn expect_none(rt: &impl Abort, table: &str, row: Option<usize>) {
    assert!(rt; row.is_none(), "{table}: row {row:?}");
}
