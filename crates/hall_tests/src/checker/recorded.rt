//! A memory that makes the accesses of a log again.

ghost use Rattle.std.specs.Prelude.{◌≡◌, ◌++◌, ◌∷◌, [], not};
ghost use Rattle.std.specs.Bool.{OnFalse, OnTrue};

use pipe_model::access::{Access, AccessKind, CellId};
use stage_interp::memory::Memory;

/// A memory that replies as in the log, and stops at an access that is not the next of the log.
#[derive(Drop)]
pub struct Recorded {
    cells: u32,
    // The accesses that are left, the next one last.
    left: Vec<Access>,
    made: Vec<Access>,
    stopped: bool,
}

impl Recorded {
    /// Returns a memory of `cells` cells with these accesses.
    pub fn new(cells: u32, accesses: Vec<Access>) -> Self
        ensures cells { result.cells ≡ cells }
    {
        let made = Vec::new(*accesses.allocator());
        let mut left = accesses;
        left.as_mut_slice().reverse();
        Recorded {
            cells,
            left,
            made,
            stopped: false,
        }
    }

    // Makes an access, if it is the one that the log has.
    fn add(&mut self, access: Access, next: Access) -> bool
        ensures yes { OnTrue result (self.new.made.items ≡ self.old.made.items ++ access ∷ []) }
        ensures no { OnFalse result (self.new.made.items ≡ self.old.made.items) }
        ensures stops { self.new.stopped ≡ not result }
        ensures cells { self.new.cells ≡ self.old.cells }
    {
        self.stopped = access != next || self.made.push(access).is_err();
        !self.stopped
    }

    /// Returns whether all accesses were made.
    pub fn is_done(&self) -> bool {
        self.left.is_empty()
    }
}

impl Memory for Recorded {
    ghost made = { λ m. m.made.items };

    ghost stopped = { λ m. m.stopped };

    ghost served = { λ m. m.cells };

    fn read(&mut self, cell: CellId) -> Option<i64> {
        match self.left.pop() {
            Some(next) => {
                let access = Access {
                    cell,
                    kind: AccessKind::Read,
                    value: next.value,
                };
                if self.add(access, next) {
                    Some(next.value)
                } else {
                    None
                }
            }
            None => {
                self.stopped = true;
                None
            }
        }
    }

    fn write(&mut self, cell: CellId, value: i64) -> bool {
        let access = Access {
            cell,
            kind: AccessKind::Write,
            value,
        };
        match self.left.pop() {
            Some(next) => self.add(access, next),
            None => {
                self.stopped = true;
                false
            }
        }
    }
}
