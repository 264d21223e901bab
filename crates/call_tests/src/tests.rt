// The real files and the real sink, and the files and sinks in memory that never fail. `call_rows` has
// those that fail.

use crate::cases::push_file;
use pipe_io::files::{Files, ReadPart};
use pipe_io::mem_files::CleanFiles;
use pipe_io::mem_sink::CleanSink;
use pipe_io::real::{RealFiles, RealSink};
use pipe_io::sink::{Sink, WritePart};
use pipe_io::whole::{Whole, WriteEnd, read_whole, write_text};
use pipe_model::memory::NoMemory;
use std::alloc::Global;
use std::io::Print;
use std::test::Fail;
use std::{fs, rt};

const TEXT: &str = "twenty bytes of text";

// Reads a file with a limit on its length. Returns whether it is read and has the text, and whether it is too
// long.
fn read_text<F: Files>(alloc: Global, files: &mut F, name: &str, limit: usize) -> (bool, bool) {
    match read_whole(alloc, files, name, limit) {
        Ok(Whole::Bytes(bytes)) => (bytes.as_slice() == TEXT.as_bytes(), false),
        Ok(Whole::TooLong(_)) => (false, true),
        _ => (false, false),
    }
}

// The same for a file in memory that has the text.
fn read_clean(alloc: Global, limit: usize) -> (bool, bool) {
    let mut files = Vec::new(alloc);
    match push_file(&mut files, alloc, "text", TEXT) {
        Ok(()) => read_text(alloc, &mut CleanFiles::new(files, 7), "text", limit),
        Err(NoMemory) => (false, false),
    }
}

#[test]
fn clean_files_are_read(rt: HostRuntime) {
    assert!(rt; read_clean(rt.alloc(), 20) == (true, false));
    assert!(rt; read_clean(rt.alloc(), 19) == (false, true));
}

// Whether a sink in memory takes the text.
fn clean_sink_takes_all(alloc: Global) -> bool {
    let mut sink = CleanSink::new(alloc, 7);
    let end = write_text(&mut sink, TEXT.as_bytes()).end;
    end == WriteEnd::Whole && sink.taken().as_slice() == TEXT.as_bytes()
}

#[test]
fn clean_sinks_take_all(rt: HostRuntime) {
    assert!(rt; clean_sink_takes_all(rt.alloc()));
}

// Reads a file that has the text from offset 14, and from its end.
fn read_parts<F: Files>(files: &mut F, name: &str) -> (ReadPart, ReadPart) {
    let mut part = [0; 8];
    let got = files.read_part(name, 14, &mut part);
    let end = files.read_part(name, 20, &mut part);
    (got, end)
}

// Whether a file with the text is read from offset 14, from its end, and as a whole, without a fault.
fn is_read<R: rt::Files>(alloc: Global, real: &mut RealFiles<R>, name: &str) -> bool {
    read_parts(real, name) == (ReadPart::Got(6), ReadPart::Got(0))
        && read_text(alloc, real, name, 20).0
        && real.faults.get() == 0
}

// The same for a real file.
fn real_file_is_read(rt: &impl rt::Files, alloc: Global, name: &str) -> bool {
    let mut real = RealFiles::new(rt);
    is_read(alloc, &mut real, name)
}

#[test]
fn real_files_are_read(rt: HostRuntime) -> Result<(), Fail> {
    let name = "cilkp_program_real_files.txt";
    fs::write(&rt, name, TEXT.as_bytes())?;
    let is_read = real_file_is_read(&rt, rt.alloc(), name);
    fs::remove_file(&rt, name)?;
    assert!(rt; is_read);
    Ok(())
}

// Reads a real file. Returns the result and the number of faults.
fn read_one(rt: &impl rt::Files, name: &str) -> (ReadPart, u64) {
    let mut real = RealFiles::new(rt);
    let mut part = [0; 8];
    let read = real.read_part(name, 0, &mut part);
    (read, real.faults.get())
}

// A folder can be opened but not read.
#[test]
fn real_reads_fail(rt: HostRuntime) {
    assert!(rt; read_one(&rt, "no_such_file.txt") == (ReadPart::Missing, 0));
    assert!(rt; read_one(&rt, ".") == (ReadPart::Failed, 1));
}

// Writes a line to the real sink, and then nothing. Returns how the first write ends, the result of the second, and
// the number of faults.
fn write_real(rt: &impl Print) -> (WriteEnd, WritePart, u64) {
    let mut real = RealSink::new(rt);
    let end = write_text(&mut real, b"written\n").end;
    let nothing = real.write_part(b"");
    (end, nothing, real.faults.get())
}

// A write that takes nothing is a fault.
#[test]
fn real_sinks_take_all(rt: HostRuntime) {
    assert!(rt; write_real(&rt) == (WriteEnd::Whole, WritePart::Failed, 1));
}
