//! Sinks that take a text part by part.

ghost use Rattle.std.specs.Prelude.{◌≡◌, ℕ, ◌<◌, List, length, Option};
ghost use Rattle.std.specs.Option.{option_map};

/// The result of writing a part of a text.
#[derive(Clone, Copy, PartialEq, Eq)]
pub enum WritePart {
    /// The number of bytes taken, from the start of the part: at least one.
    Took(u32),
    /// The write failed, and nothing was taken.
    Failed,
    /// The sink was out of memory, and nothing was taken.
    NoMemory,
}

/// A sink of bytes.
pub trait Sink {
    ghost use Rattle.pipe_io.specs.Faults.{CountsFault};
    ghost use Rattle.pipe_io.specs.Writes.{is_write_fault, TakesSome, taken_after};

    /// The bytes that were taken, if they are known.
    ghost taken: { Self → Option (List ℕ) };

    /// The count of writes that failed.
    ghost faults: { Self → ℕ };

    /// Takes a prefix of `part`, which must not be empty. Returns `Failed` only if the count of
    /// faults rises.
    fn write_part(&mut self, part: &[u8]) -> WritePart
        requires { 0 < length part.now }
        ensures cause { CountsFault (is_write_fault result) (faults self.old) (faults self.new) }
        ensures some { TakesSome result part.now }
        ensures taken { taken self.new ≡ option_map (taken_after result part.now) (taken self.old) };
}
