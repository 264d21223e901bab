//! Reads whole files and writes whole texts, part by part.

ghost use Rattle.std.specs.Prelude.{◌≡◌, ◌+◌, ◌++◌, ◌≤◌, ◌<◌, ◌↔◌, length, take, IsOk, IfOk, OnErr, IfSome};
ghost use Rattle.std.specs.Option.{option_map};
ghost use Rattle.pipe_io.specs.Faults.{CountsFault};
ghost use Rattle.pipe_io.specs.Reads.{is_read_fault, bytes_read};
ghost use Rattle.pipe_io.specs.WholeFiles.{is_file_fault, IsUpTo, IsWholeOf, is_text_fault, IsPrefixOf, EndsAt};

use crate::files::{Files, ReadPart};
use crate::sink::{Sink, WritePart};
use pipe_model::list::Bytes;
use pipe_model::memory::NoMemory;
use std::alloc::Global;

/// The result of reading a file.
#[derive(Drop)]
pub enum Whole {
    /// All bytes of the file, at most the limit.
    Bytes(Bytes),
    /// The file is longer than the limit. These are its first bytes, more than the limit.
    TooLong(Bytes),
    /// There is no file of this name.
    Missing,
    /// A read failed.
    Failed,
}

// The most bytes that a read asks for.
const PART: usize = 4096;

// The length of the next part, with `read` bytes read already: no read goes more than one byte past
// the limit.
fn next_room(limit: usize, read: usize) -> usize
    requires { read ≤ limit }
    ensures positive { 0 < result }
    ensures fits { result ≤ 4096 }
    ensures within { read + result ≤ limit + 1 }
{
    (limit - read).min(PART - 1) + 1
}

/// Reads a file of at most `limit` bytes, part by part, and at most one byte past the limit.
/// Returns an error only if memory runs out; if a read fails, the result is `Ok(Whole::Failed)`.
pub fn read_whole<F: Files>(
    alloc: Global,
    files: &mut F,
    name: &str,
    limit: usize,
) -> Result<Whole, NoMemory>
    ensures keeps { F.holds files.new ≡ F.holds files.old }
    ensures cause { IfOk result (λ whole. CountsFault (is_file_fault whole) (F.faults files.old) (F.faults files.new)) }
    ensures memory { OnErr result (F.faults files.new ≡ F.faults files.old) }
    ensures limit { IfOk result (λ whole. IsUpTo limit whole) }
    ensures known { IfOk result (λ whole. IfSome (F.holds files.old) (λ content.
        IsWholeOf (content name.now) limit whole)) }
{
    let mut bytes = Vec::new(alloc);
    let mut part = [0; PART];
    while bytes.len() <= limit {
        let room = next_room(limit, bytes.len());
        match read_more(files, name, &mut bytes, &mut part[..room])? {
            ReadPart::Missing => return Ok(Whole::Missing),
            ReadPart::Failed => return Ok(Whole::Failed),
            ReadPart::Got(0) => return Ok(Whole::Bytes(Bytes::from_vec(bytes))),
            ReadPart::Got(_) => {}
        }
    }
    Ok(Whole::TooLong(Bytes::from_vec(bytes)))
}

// Reads the next part of the file, after `bytes`, into `part`, and appends it to `bytes`.
fn read_more<F: Files>(
    files: &mut F,
    name: &str,
    bytes: &mut Vec<u8>,
    part: &mut [u8],
) -> Result<ReadPart, NoMemory>
    requires room { 0 < length part.old }
    requires prefix { IfSome (F.holds files.old) (λ content. IsPrefixOf (content name.now) bytes.old.items) }
    ensures keeps { F.holds files.new ≡ F.holds files.old }
    ensures cause { IfOk result (λ read. CountsFault (is_read_fault read) (F.faults files.old) (F.faults files.new)) }
    ensures memory { OnErr result (F.faults files.new ≡ F.faults files.old) }
    ensures grew { IfOk result (λ read. length bytes.new.items ≡ length bytes.old.items + bytes_read read) }
    ensures prefix { IsOk result → IfSome (F.holds files.old) (λ content. IsPrefixOf (content name.now) bytes.new.items) }
    ensures ends { IfOk result (λ read. IfSome (F.holds files.old) (λ content.
        EndsAt (content name.now) bytes.new.items read)) }
{
    let read = files.read_part(name, bytes.len() as u64, part);
    if let ReadPart::Got(n) = read {
        bytes.extend_from_slice(&part[..n as usize])?;
    }
    Ok(read)
}

/// How the writing of a text ended.
#[derive(Clone, Copy, PartialEq, Eq)]
pub enum WriteEnd {
    /// All of the text was taken.
    Whole,
    /// A write failed.
    Failed,
    /// The sink was out of memory.
    NoMemory,
}

/// How the writing of a text ended, and the length of the prefix that was taken.
#[derive(Clone, Copy)]
pub struct Written {
    /// How the writing ended.
    pub end: WriteEnd,
    /// The number of bytes taken, from the start of the text.
    pub count: u64,
}

/// Writes a text, part by part, until all of it is written or the sink does not take a part.
pub fn write_text<S: Sink>(out: &mut S, text: &[u8]) -> Written
    ensures cause { CountsFault (is_text_fault result.end) (S.faults out.old) (S.faults out.new) }
    ensures count { result.count ≤ length text.now }
    ensures whole { (result.end ≡ WriteEnd.Whole) ↔ (result.count ≡ length text.now) }
    ensures taken { S.taken out.new ≡ option_map (λ bytes. bytes ++ take result.count text.now) (S.taken out.old) }
{
    let mut done: usize = 0;
    while done < text.len() {
        match out.write_part(&text[done..]) {
            WritePart::Took(n) => done += n as usize,
            WritePart::Failed => return ended(WriteEnd::Failed, done),
            WritePart::NoMemory => return ended(WriteEnd::NoMemory, done),
        }
    }
    ended(WriteEnd::Whole, done)
}

// The result after `done` bytes.
fn ended(end: WriteEnd, done: usize) -> Written
    ensures { result ≡ record { end = end; count = done } }
{
    let count = done as u64;
    Written { end, count }
}
