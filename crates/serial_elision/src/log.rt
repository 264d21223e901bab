//! What a run has done so far.

ghost use Rattle.std.specs.Prelude.{◌≡◌, ◌++◌, ◌∷◌, []};
ghost use Rattle.std.specs.Bool.{OnTrue, OnFalse};

use cell_store::cells::Cells;
use pipe_model::access::{Access, NodeAccess, NodeAccesses};
use pipe_model::node::NodeId;
use std::alloc::Global;

/// The values of the cells, and the accesses so far.
#[derive(Drop)]
pub struct Log {
    pub cells: Cells,
    pub accesses: NodeAccesses,
}

impl Log {
    // Returns a log without accesses.
    pub fn new(alloc: Global, cells: Cells) -> Self
        ensures { result ≡ record { cells = cells; accesses = [] } }
    {
        Log {
            cells,
            accesses: NodeAccesses::new(alloc),
        }
    }

    // Records an access of an instance. Returns `false` if memory runs out; then nothing has changed.
    pub fn record_access(&mut self, node: NodeId, access: Access) -> bool
        ensures accesses { OnTrue result (self.new.accesses ≡ self.old.accesses ++ record { node = node; access = access } ∷ []) }
        ensures refused { OnFalse result (self.new.accesses ≡ self.old.accesses) }
        ensures cells { self.new.cells ≡ self.old.cells }
    {
        self.accesses.push(NodeAccess { node, access }).is_ok()
    }
}
