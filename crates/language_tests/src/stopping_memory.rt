//! A memory that stops after a number of accesses.

ghost use Rattle.std.specs.Prelude.{◌≡◌, ◌++◌, ◌∷◌, [], IfOk, length, not};
ghost use Rattle.std.specs.Bool.{OnFalse, OnTrue};

use pipe_model::access::{Access, AccessKind, CellId};
use pipe_model::memory::NoMemory;
use stage_interp::memory::Memory;
use std::alloc::Global;

/// A memory whose cells are 0 at first, and which stops after `left` more accesses.
#[derive(Drop)]
pub struct StoppingMemory {
    pub left: u32,
    pub made: Vec<Access>,
    stopped: bool,
    values: Vec<i64>,
}

impl StoppingMemory {
    /// Returns a memory of this many cells. Returns an error only if memory runs out.
    pub fn new(alloc: Global, cells: u32, left: u32) -> Result<Self, NoMemory>
        ensures { IfOk result (λ memory. length memory.values.items ≡ cells) }
    {
        let values = vec![in alloc; 0; cells as usize]?;
        Ok(StoppingMemory {
            left,
            made: Vec::new(alloc),
            stopped: false,
            values,
        })
    }

    // Adds an access, unless the memory stops.
    fn add(&mut self, access: Access) -> bool
        ensures yes { OnTrue result (self.new.made.items ≡ self.old.made.items ++ access ∷ []) }
        ensures no { OnFalse result (self.new.made.items ≡ self.old.made.items) }
        ensures stops { self.new.stopped ≡ not result }
        ensures values { self.new.values ≡ self.old.values }
    {
        self.stopped = self.left == 0 || self.made.push(access).is_err();
        if !self.stopped {
            self.left -= 1;
        }
        !self.stopped
    }
}

impl Memory for StoppingMemory {
    ghost use Rattle.std.specs.Prelude.{length};

    ghost made = { λ m. m.made.items };

    ghost stopped = { λ m. m.stopped };

    ghost served = { λ m. length m.values.items };

    fn read(&mut self, cell: CellId) -> Option<i64> {
        let value = self.values[cell.0 as usize];
        let kind = AccessKind::Read;
        if self.add(Access { cell, kind, value }) {
            Some(value)
        } else {
            None
        }
    }

    fn write(&mut self, cell: CellId, value: i64) -> bool {
        let kind = AccessKind::Write;
        let added = self.add(Access { cell, kind, value });
        if added {
            self.values[cell.0 as usize] = value;
        }
        added
    }
}
