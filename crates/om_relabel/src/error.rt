//! The error of calls that allocate.

ghost use Rattle.std.specs.Prelude.{◌≡◌};

use pipe_model::memory::NoMemory;
use std::alloc::AllocError;

/// Out of memory. Any call that allocates may return it; no clause says when.
#[derive(Clone, Copy)]
pub struct OutOfMemory;

impl From<AllocError> for OutOfMemory {
    ghost from_gives = { λ _ e. e ≡ record {} };

    fn from(_refused: AllocError) -> Self {
        OutOfMemory
    }
}

impl From<OutOfMemory> for NoMemory {
    ghost from_gives = { λ _ e. e ≡ record {} };

    fn from(_refused: OutOfMemory) -> Self {
        NoMemory
    }
}
