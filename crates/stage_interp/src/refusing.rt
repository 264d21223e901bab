//! A memory that refuses every access.

use crate::memory::Memory;
use pipe_model::access::CellId;
use std::marker::{Brand, PhantomData};

/// A memory at rest: its accesses so far, and how many cells it serves. They exist in proofs only, and the
/// call that runs instructions up to an access picks them.
pub trait Frozen {
    ghost use Rattle.std.specs.Prelude.{List, ℕ};
    ghost use Rattle.pipe_model.specs.declared.access.Access.{Access};

    /// The accesses so far.
    ghost made: { List Access };

    /// How many cells it serves.
    ghost served: { ℕ };
}

impl Frozen for Brand {
    ghost use Rattle.std.specs.Prelude.{[]};

    ghost made = { [] };

    ghost served = { 0 };
}

/// In place of a memory: refuses every access, so an instruction that would make one is then pending. Nothing
/// of it is there when the program runs. It is a type of its own for each `K`, so that the loop over
/// instructions has one caller for each, of which it becomes a part: then the state of the instance is in
/// registers.
#[derive(Drop)]
pub struct Refusing<K, F: Frozen> {
    of: PhantomData<K>,
    frozen: PhantomData<F>,
}

impl<K, F: Frozen> Refusing<K, F> {
    // Returns a memory that refuses every access.
    pub fn new() -> Self {
        Refusing {
            of: PhantomData,
            frozen: PhantomData,
        }
    }
}

impl<K, F: Frozen> Memory for Refusing<K, F> {
    ghost use Rattle.std.specs.Prelude.{true};

    ghost made = { λ m. F.made };

    ghost stopped = { λ m. true };

    ghost served = { λ m. F.served };

    #[inline(always)]
    fn read(&mut self, cell: CellId) -> Option<i64> {
        let _ = cell;
        None
    }

    #[inline(always)]
    fn write(&mut self, cell: CellId, value: i64) -> bool {
        let _ = cell;
        let _ = value;
        false
    }
}
