//! Files in memory, which serve a limited number of bytes a call, and may fail at chosen calls.

ghost use Rattle.std.specs.Prelude.{◌≡◌, ◌<◌, length, IfSome, IfNone, Some, None, if◌then◌else◌, false};
ghost use Rattle.pipe_io.specs.Faults.{CountsFault};
ghost use Rattle.pipe_io.specs.FaultPlan.{first_plan, fails_next, after_call};
ghost use Rattle.pipe_io.specs.Reads.{is_read_fault, IsWithin, ReadsFrom, IsPartAt};
ghost use Rattle.pipe_io.specs.MemoryFiles.{named_bytes, content_of, served, served_len};

use crate::fault_plan::FaultPlan;
use crate::files::{Files, ReadPart};
use pipe_model::list::Bytes;
use std::marker::Model;

/// Files in memory that never fail.
#[derive(Drop)]
pub struct CleanFiles {
    files: Vec<(String, Bytes)>,
    most: u32,
}

impl Model for CleanFiles {
    ghost use Rattle.std.specs.Prelude.{◌<◌};
    ghost use Rattle.pipe_io.specs.MemoryFiles.{StoredFiles, named_bytes};

    ghost Value = { StoredFiles };

    ghost view = { λ c. record { files = named_bytes c.files.items; most = c.most } };

    ghost invariant = { λ c. 0 < c.most };
}

impl CleanFiles {
    /// Creates files with these names; of two with one name the first is read. A call reads at most
    /// `most` bytes, which is at least 1.
    pub fn new(files: Vec<(String, Bytes)>, most: u32) -> Self
        requires { 0 < most }
        ensures { result ≡ record { files = named_bytes files.items; most = most } }
    {
        CleanFiles { files, most }
    }

    /// Reads all bytes from offset `place`, but at most as many as `part` has room for, and at most
    /// `most`. `part` must not be empty.
    pub fn serve(&self, name: &str, place: u64, part: &mut [u8]) -> ReadPart
        requires { 0 < length part.old }
        ensures outcome { result ≡ served (content_of self.now.files name.now) place (length part.old) self.now.most }
        ensures known { ReadsFrom (content_of self.now.files name.now) place result part.new }
    {
        match first_named(self.files.as_slice(), name) {
            None => ReadPart::Missing,
            Some(bytes) => ReadPart::Got(copy_part(bytes, place, self.most, part)),
        }
    }
}

// The bytes of the first file with this name.
fn first_named<'a>(files: &'a [(String, Bytes)], name: &str) -> Option<&'a [u8]>
    ensures some { IfSome result (λ bytes. content_of (named_bytes files.now) name.now ≡ Some bytes.now) }
    ensures none { IfNone result (content_of (named_bytes files.now) name.now ≡ None) }
{
    for (other, bytes) in files {
        if other.as_str() == name {
            return Some(bytes.as_slice());
        }
    }
    None
}

// Copies the bytes from offset `place` to the start of `part`, and returns their number.
fn copy_part(bytes: &[u8], place: u64, most: u32, part: &mut [u8]) -> u32
    requires room { 0 < length part.old }
    requires positive { 0 < most }
    ensures count { result ≡ served_len bytes.now place (length part.old) most }
    ensures part { IsPartAt bytes.now place result part.new }
{
    if bytes.len() as u64 <= place {
        return 0;
    }
    let start = place as usize;
    let n = (bytes.len() - start).min(part.len()).min(most as usize);
    for k in 0..n {
        part[k] = bytes[start + k];
    }
    n as u32
}

impl Files for CleanFiles {
    ghost use Rattle.std.specs.Prelude.{Some};
    ghost use Rattle.pipe_io.specs.MemoryFiles.{content_of};

    ghost holds = { λ c. Some (content_of c.files) };

    ghost faults = { λ _. 0 };

    fn read_part(&mut self, name: &str, place: u64, part: &mut [u8]) -> ReadPart
        requires { 0 < length part.old }
        ensures keeps { self.new ≡ self.old }
        ensures never { is_read_fault result ≡ false }
        ensures within { IsWithin result part.new }
        ensures known { ReadsFrom (content_of self.old.files name.now) place result part.new }
        ensures outcome { result ≡ served (content_of self.old.files name.now) place (length part.old) self.old.most }
    {
        self.serve(name, place, part)
    }
}

/// Files in memory that fail at the calls of a plan.
#[derive(Drop)]
pub struct MemFiles {
    /// The files for the calls that do not fail.
    pub files: CleanFiles,
    /// Which calls fail, and how many have failed.
    pub plan: FaultPlan,
}

impl MemFiles {
    /// Creates files with these names; of two with one name the first is read. A call reads at most
    /// `most` bytes, which is at least 1, and the calls whose numbers, counted from 0, are in
    /// `fail_at` fail.
    pub fn new(files: Vec<(String, Bytes)>, most: u32, fail_at: Vec<u32>) -> Self
        requires { 0 < most }
        ensures files { result.files ≡ record { files = named_bytes files.items; most = most } }
        ensures plan { result.plan ≡ first_plan fail_at.items }
    {
        MemFiles {
            files: CleanFiles::new(files, most),
            plan: FaultPlan::new(fail_at),
        }
    }
}

impl Files for MemFiles {
    ghost use Rattle.std.specs.Prelude.{Some};
    ghost use Rattle.pipe_io.specs.MemoryFiles.{content_of};

    ghost holds = { λ m. Some (content_of m.files.files) };

    ghost faults = { λ m. m.plan.faults };

    fn read_part(&mut self, name: &str, place: u64, part: &mut [u8]) -> ReadPart
        requires { 0 < length part.old }
        ensures keeps { self.new.files ≡ self.old.files }
        ensures cause { CountsFault (is_read_fault result) self.old.plan.faults self.new.plan.faults }
        ensures within { IsWithin result part.new }
        ensures known { ReadsFrom (content_of self.old.files.files name.now) place result part.new }
        ensures plan { self.new.plan ≡ after_call self.old.plan }
        ensures outcome { result ≡ (if fails_next self.old.plan then ReadPart.Failed
            else served (content_of self.old.files.files name.now) place (length part.old) self.old.files.most) }
    {
        if self.plan.next_fails() {
            return ReadPart::Failed;
        }
        self.files.serve(name, place, part)
    }
}
