//! The real files and the real standard output, which are trusted. Their contracts do not say which
//! bytes are read and taken.

ghost use Rattle.std.specs.Prelude.{◌≡◌, ◌≢◌, ◌≤◌, length, IfOk};
ghost use Rattle.pipe_io.specs.Faults.{CountsFault, count_after};
ghost use Rattle.pipe_io.specs.Reads.{is_read_fault, IsWithin};
ghost use Rattle.pipe_io.specs.Writes.{is_write_fault, TakesSome};

use crate::fault_count::FaultCount;
use crate::files::{Files, ReadPart};
use crate::sink::{Sink, WritePart};
use arrayvec::ArrayString;
use std::fs::File;
use std::io::{ErrorKind, Read, Seek, SeekFrom};
use std::{io, rt};

// The longest name of a file that stays open, in bytes. Linux opens no file of a longer name.
const LONGEST_NAME: usize = 4096;

// A file that is open, its name, and the offset that was reached.
#[derive(Drop)]
struct Reading<F> {
    file: F,
    name: ArrayString<LONGEST_NAME>,
    reached: u64,
}

/// The files of the system. The file that was read last stays open, so a part that begins where the
/// one before it ended is read on from the same file. So a pipe can be read, and a file that is
/// replaced meanwhile is read from one version. Any other part is read from the file that has the
/// name then, and so is a part at offset 0.
#[derive(Drop)]
pub struct RealFiles<R: rt::Files> {
    rt: R,
    reading: Option<Reading<R::File>>,
    /// The number of reads that failed.
    pub faults: FaultCount,
}

impl<R: rt::Files> RealFiles<R> {
    /// Creates the files of the system, before the first fault.
    pub fn new(rt: R) -> Self
        ensures { result.faults ≡ 0 }
    {
        RealFiles {
            rt,
            reading: None,
            faults: FaultCount::new(),
        }
    }

    // Returns the file `name` at offset `place`: the one that is open there, or else the one that
    // has the name now. No file is open afterwards.
    fn take_at(&mut self, name: &str, place: u64) -> io::Result<R::File>
        ensures { self.new.faults ≡ self.old.faults }
    {
        if let Some(reading) = self.reading.take()
            && 0 < place
            && reading.reached == place
            && reading.name.as_str() == name
        {
            return Ok(reading.file);
        }
        let mut file = File::open(&self.rt, name)?;
        // The start needs no seek, which a pipe does not allow.
        if 0 < place {
            file.seek(SeekFrom::Start(place))?;
        }
        Ok(file)
    }

    // Keeps a file open that was read up to offset `reached`, unless its name is too long.
    fn keep(&mut self, file: R::File, name: &str, reached: u64)
        ensures { self.new.faults ≡ self.old.faults }
    {
        if let Ok(name) = ArrayString::from(name) {
            self.reading = Some(Reading {
                file,
                name,
                reached,
            });
        }
    }

    // Reads a part of the file `name`, from offset `place`.
    fn read_at(&mut self, name: &str, place: u64, part: &mut [u8]) -> io::Result<usize>
        ensures within { IfOk result (λ n. n ≤ length part.new) }
        ensures faults { self.new.faults ≡ self.old.faults }
    {
        let mut file = self.take_at(name, place)?;
        let n = file.read(part)?;
        if let Some(reached) = place.checked_add(n as u64) {
            self.keep(file, name, reached);
        }
        Ok(n)
    }
}

impl<R: rt::Files> Files for RealFiles<R> {
    ghost use Rattle.std.specs.Prelude.{None};

    ghost holds = { λ _. None };

    ghost faults = { λ f. f.faults };

    fn read_part(&mut self, name: &str, place: u64, part: &mut [u8]) -> ReadPart
        ensures cause { CountsFault (is_read_fault result) self.old.faults self.new.faults }
        ensures count { self.new.faults ≡ count_after (is_read_fault result) self.old.faults }
        ensures within { IsWithin result part.new }
    {
        match self.read_at(name, place, part) {
            Ok(n) => ReadPart::Got(n.min(u32::MAX as usize) as u32),
            Err(e) if e.kind() == ErrorKind::NotFound => ReadPart::Missing,
            Err(_) => {
                self.faults.rise();
                ReadPart::Failed
            }
        }
    }
}

/// The standard output.
#[derive(Drop)]
pub struct RealSink<R> {
    rt: R,
    /// The number of writes that failed.
    pub faults: FaultCount,
}

impl<R> RealSink<R> {
    /// Creates the standard output, before the first fault.
    pub fn new(rt: R) -> Self
        ensures { result.faults ≡ 0 }
    {
        RealSink {
            rt,
            faults: FaultCount::new(),
        }
    }
}

impl<R: Print> Sink for RealSink<R> {
    ghost use Rattle.std.specs.Prelude.{None};

    ghost taken = { λ _. None };

    ghost faults = { λ s. s.faults };

    fn write_part(&mut self, part: &[u8]) -> WritePart
        ensures cause { CountsFault (is_write_fault result) self.old.faults self.new.faults }
        ensures count { self.new.faults ≡ count_after (is_write_fault result) self.old.faults }
        ensures some { TakesSome result part.now }
        ensures needs_no_memory { result ≢ WritePart.NoMemory }
    {
        let most = part.len().min(u32::MAX as usize);
        match self.rt.write_some(&part[..most]) {
            Ok(n) if n > 0 => WritePart::Took(n as u32),
            _ => {
                self.faults.rise();
                WritePart::Failed
            }
        }
    }
}
