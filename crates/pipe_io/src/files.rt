//! Files that are read part by part.

ghost use Rattle.std.specs.Prelude.{◌≡◌, ℕ, ◌<◌, length, Option, IfSome};

/// The result of reading a part of a file.
#[derive(Clone, Copy, PartialEq, Eq, Debug)]
pub enum ReadPart {
    /// The number of bytes read, to the start of the part: 0 exactly at the file's end or past it.
    Got(u32),
    /// There is no file of this name.
    Missing,
    /// The read failed.
    Failed,
}

/// Files that can be read by name.
pub trait Files {
    ghost use Rattle.pipe_io.specs.Faults.{CountsFault};
    ghost use Rattle.pipe_io.specs.Reads.{Content, is_read_fault, IsWithin, ReadsFrom};

    /// The content of the files, if it is known.
    ghost holds: { Self → Option Content };

    /// The count of reads that failed.
    ghost faults: { Self → ℕ };

    /// Reads the file `name` from `place`, an offset in bytes, into `part`, which must not be
    /// empty. Returns `Failed` only if the count of faults rises. The bytes of `part` after those
    /// read are unspecified.
    fn read_part(&mut self, name: &str, place: u64, part: &mut [u8]) -> ReadPart
        requires { 0 < length part.old }
        ensures keeps { holds self.new ≡ holds self.old }
        ensures cause { CountsFault (is_read_fault result) (faults self.old) (faults self.new) }
        ensures within { IsWithin result part.new }
        ensures known { IfSome (holds self.old) (λ content. ReadsFrom (content name.now) place result part.new) };
}
