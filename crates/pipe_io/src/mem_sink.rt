//! Sinks in memory, which take a limited number of bytes a call, and may fail at chosen calls.

ghost use Rattle.std.specs.Prelude.{◌≡◌, ◌≢◌, ◌<◌, ◌↔◌, [], length, min, true, false};
ghost use Rattle.pipe_io.specs.Faults.{CountsFault};
ghost use Rattle.pipe_io.specs.FaultPlan.{first_plan, fails_next, after_call};
ghost use Rattle.pipe_io.specs.Writes.{is_write_fault, TakesSome, taken_after};

use crate::fault_plan::FaultPlan;
use crate::sink::{Sink, WritePart};
use pipe_model::list::Bytes;
use std::alloc::Global;
use std::marker::Model;
use std::mem;

/// A sink in memory that never fails.
#[derive(Drop)]
pub struct CleanSink {
    alloc: Global,
    taken: Bytes,
    most: u32,
}

impl Model for CleanSink {
    ghost use Rattle.std.specs.Prelude.{◌<◌};
    ghost use Rattle.pipe_io.specs.MemoryFiles.{StoredText};

    ghost Value = { StoredText };

    ghost view = { λ s. record { taken = s.taken; most = s.most } };

    ghost invariant = { λ s. 0 < s.most };
}

impl CleanSink {
    /// Creates an empty sink. A call takes at most `most` bytes, which is at least 1.
    pub fn new(alloc: Global, most: u32) -> Self
        requires { 0 < most }
        ensures { result ≡ record { taken = []; most = most } }
    {
        CleanSink {
            alloc,
            taken: Bytes::new(alloc),
            most,
        }
    }

    /// Returns the bytes that were taken, in order.
    pub fn taken(&self) -> &Bytes
        ensures { result.now ≡ self.now.taken }
    {
        &self.taken
    }

    /// Takes the first bytes of `part`, which must not be empty: all of it, or `most` bytes if it
    /// has more. Takes none if memory runs out, and returns `NoMemory`.
    pub fn take(&mut self, part: &[u8]) -> WritePart
        requires { 0 < length part.now }
        ensures outcome { result ≢ WritePart.NoMemory → result ≡ WritePart.Took (min (length part.now) self.old.most) }
        ensures some { TakesSome result part.now }
        ensures taken { self.new ≡ record self.old { taken = taken_after result part.now self.old.taken } }
    {
        let n = part.len().min(self.most as usize);
        let mut bytes = mem::replace(&mut self.taken, Bytes::new(self.alloc)).into_vec();
        let outcome = match bytes.extend_from_slice(&part[..n]) {
            Ok(()) => WritePart::Took(n as u32),
            Err(_) => WritePart::NoMemory,
        };
        self.taken = Bytes::from_vec(bytes);
        outcome
    }
}

impl Sink for CleanSink {
    ghost use Rattle.std.specs.Prelude.{Some};

    ghost taken = { λ s. Some s.taken };

    ghost faults = { λ _. 0 };

    fn write_part(&mut self, part: &[u8]) -> WritePart
        requires { 0 < length part.now }
        ensures never { is_write_fault result ≡ false }
        ensures some { TakesSome result part.now }
        ensures taken { self.new ≡ record self.old { taken = taken_after result part.now self.old.taken } }
        ensures outcome { result ≢ WritePart.NoMemory → result ≡ WritePart.Took (min (length part.now) self.old.most) }
    {
        self.take(part)
    }
}

/// A sink in memory that fails at the calls of a plan.
#[derive(Drop)]
pub struct MemSink {
    /// The sink for the calls that do not fail.
    pub sink: CleanSink,
    /// Which calls fail, and how many have failed.
    pub plan: FaultPlan,
}

impl MemSink {
    /// Creates an empty sink. A call takes at most `most` bytes, which is at least 1, and the calls
    /// whose numbers, counted from 0, are in `fail_at` fail.
    pub fn new(alloc: Global, most: u32, fail_at: Vec<u32>) -> Self
        requires { 0 < most }
        ensures sink { result.sink ≡ record { taken = []; most = most } }
        ensures plan { result.plan ≡ first_plan fail_at.items }
    {
        MemSink {
            sink: CleanSink::new(alloc, most),
            plan: FaultPlan::new(fail_at),
        }
    }

    /// Returns the bytes that were taken, in order.
    pub fn taken(&self) -> &Bytes
        ensures { result.now ≡ self.now.sink.taken }
    {
        self.sink.taken()
    }
}

impl Sink for MemSink {
    ghost use Rattle.std.specs.Prelude.{Some};

    ghost taken = { λ m. Some m.sink.taken };

    ghost faults = { λ m. m.plan.faults };

    fn write_part(&mut self, part: &[u8]) -> WritePart
        requires { 0 < length part.now }
        ensures cause { CountsFault (is_write_fault result) self.old.plan.faults self.new.plan.faults }
        ensures some { TakesSome result part.now }
        ensures taken { self.new.sink ≡ record self.old.sink { taken = taken_after result part.now self.old.sink.taken } }
        ensures plan { self.new.plan ≡ after_call self.old.plan }
        ensures fails { (result ≡ WritePart.Failed) ↔ (fails_next self.old.plan ≡ true) }
        ensures outcome { result ≢ WritePart.Failed → result ≢ WritePart.NoMemory
            → result ≡ WritePart.Took (min (length part.now) self.old.sink.most) }
    {
        if self.plan.next_fails() {
            return WritePart::Failed;
        }
        self.sink.take(part)
    }
}
