//! Memories that let no or one access of a stage instance pass.

use cell_store::cells::Cells;
use pipe_model::access::{Access, AccessKind, CellId};
use stage_interp::memory::Memory;
use std::marker::{Brand, Model, PhantomData};

/// The cells as a memory that refuses each access.
#[derive(Drop)]
pub struct NoAccess<'a> {
    cells: &'a Cells,
    stopped: bool,
}

impl<'a> NoAccess<'a> {
    ghost use Rattle.std.specs.Prelude.{◌≡◌};

    // Returns a memory that has refused no access yet.
    pub fn new(cells: &'a Cells) -> Self
        ensures { result.cells.now ≡ cells.now }
    {
        NoAccess {
            cells,
            stopped: false,
        }
    }
}

impl<'a> Memory for NoAccess<'a> {
    ghost use Rattle.std.specs.Prelude.{[]};

    ghost made = { λ m. [] };

    ghost stopped = { λ m. m.stopped };

    ghost served = { λ m. m.cells.now.shard.cells };

    fn read(&mut self, cell: CellId) -> Option<i64> {
        let _ = cell;
        self.stopped = true;
        None
    }

    fn write(&mut self, cell: CellId, value: i64) -> bool {
        let _ = (cell, value);
        self.stopped = true;
        false
    }
}

/// The cells before an access. They exist in proofs only, and the call that makes the access picks
/// them.
pub trait CellsBefore {
    ghost use Rattle.cell_store.specs.ShardState.{ShardState};

    ghost cells: { ShardState };
}

impl CellsBefore for Brand {
    ghost use Rattle.std.specs.Prelude.{[]};

    ghost cells = { record { shard = record { number = 0; shards = 1; cells = 0; output_limit = 0 }; values = []; output = [] } };
}

/// The cells as a memory that lets one access pass, and refuses each further one. It keeps the access
/// and does not write the cell, which no further access of the same call can see.
#[derive(Drop)]
pub struct OneAccess<'a, B: CellsBefore> {
    cells: &'a Cells,
    made: Option<Access>,
    stopped: bool,
    of: PhantomData<B>,
}

impl<'a, B: CellsBefore> Model for OneAccess<'a, B> {
    ghost use Rattle.schedule_play.specs.OneAccess.{AccessState, IsOneAccess};

    ghost Value = { AccessState };

    ghost view = { λ m. record { cells = m.cells.now; made = m.made; stopped = m.stopped } };

    ghost invariant = { λ m. IsOneAccess B.cells (record { cells = m.cells.now; made = m.made; stopped = m.stopped }) };
}

impl<'a, B: CellsBefore> OneAccess<'a, B> {
    ghost use Rattle.std.specs.Prelude.{◌≡◌, ◌<◌, ◌++◌, IfSome, Some, None, false, true, not, is_some};
    ghost use Rattle.std.specs.Bool.{OnTrue, OnFalse};
    ghost use Rattle.schedule_play.specs.OneAccess.{HasAllCells, IsNextAccess, access_list};

    // Returns a memory that has made no access.
    pub fn new(cells: &'a Cells) -> Self
        requires cells { cells.now ≡ B.cells }
        requires all { HasAllCells cells.now }
        ensures { result ≡ record { cells = cells.now; made = None; stopped = false } }
    {
        OneAccess {
            cells,
            made: None,
            stopped: false,
            of: PhantomData,
        }
    }

    // Makes an access, unless one was made.
    fn pass(&mut self, access: Access) -> bool
        requires next { IsNextAccess self.old.cells access }
        ensures yes { OnTrue result (access_list self.new.made ≡ access_list self.old.made ++ access_list (Some access)) }
        ensures no { OnFalse result (self.new.made ≡ self.old.made) }
        ensures stops { self.new.stopped ≡ not result }
        ensures cells { self.new.cells ≡ self.old.cells }
    {
        self.stopped = self.made.is_some();
        if !self.stopped {
            self.made = Some(access);
        }
        !self.stopped
    }

    // Returns the access, if one was made.
    pub fn access(&self) -> Option<Access>
        ensures access { result ≡ self.now.made }
        ensures next { IfSome result (IsNextAccess B.cells) }
        ensures stops { self.now.stopped ≡ true → is_some result ≡ true }
    {
        self.made
    }
}

impl<'a, B: CellsBefore> Memory for OneAccess<'a, B> {
    ghost use Rattle.schedule_play.specs.OneAccess.{access_list};

    ghost made = { λ m. access_list m.made };

    ghost stopped = { λ m. m.stopped };

    ghost served = { λ m. m.cells.shard.cells };

    fn read(&mut self, cell: CellId) -> Option<i64> {
        let value = self.cells.read(cell);
        let kind = AccessKind::Read;
        if self.pass(Access { cell, kind, value }) {
            Some(value)
        } else {
            None
        }
    }

    fn write(&mut self, cell: CellId, value: i64) -> bool {
        let kind = AccessKind::Write;
        self.pass(Access { cell, kind, value })
    }
}
