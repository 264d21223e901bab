//! The memory of the serial elision.

use crate::log::Log;
use pipe_model::access::{Access, AccessKind, CellId};
use pipe_model::node::NodeId;
use stage_interp::memory::Memory;
use std::marker::{Brand, Model, PhantomData};

/// The log with which a stage instance begins, and the instance. They exist in proofs only, and the
/// call that runs the instance picks them.
pub trait Beginning {
    ghost use Rattle.pipe_model.specs.declared.node.NodeId.{NodeId};
    ghost use Rattle.serial_elision.specs.declared.log.Log.{Log};

    ghost log: { Log };

    ghost node: { NodeId };
}

impl Beginning for Brand {
    ghost use Rattle.std.specs.Prelude.{[]};

    ghost log = { record {
      cells = record { shard = record { number = 0; shards = 1; cells = 0; output_limit = 0 }; values = []; output = [] };
      accesses = [];
    } };

    ghost node = { record { iteration = 0; index = 0 } };
}

/// The cells as the memory of a stage instance, which records its accesses. It stops when memory
/// runs out.
#[derive(Drop)]
pub struct Recorder<B: Beginning> {
    log: Log,
    node: NodeId,
    full: bool,
    of: PhantomData<B>,
}

impl<B: Beginning> Model for Recorder<B> {
    ghost use Rattle.serial_elision.specs.Recording.{IsRecordedFrom, Recording};

    ghost Value = { Recording };

    ghost view = { λ r. record { log = r.log; node = r.node; full = r.full } };

    ghost invariant = { λ r. IsRecordedFrom B.log B.node (record { log = r.log; node = r.node; full = r.full }) };
}

impl<B: Beginning> Recorder<B> {
    ghost use Rattle.std.specs.Prelude.{◌≡◌, false};
    ghost use Rattle.serial_elision.specs.Recording.{Adds, IsWhole, made_since};

    // Returns a recorder at the beginning of the instance.
    pub fn new(log: Log, node: NodeId) -> Self
        requires log { log ≡ B.log }
        requires node { node ≡ B.node }
        requires whole { IsWhole log.cells }
        ensures { result ≡ record { log = log; node = node; full = false } }
    {
        Recorder {
            log,
            node,
            full: false,
            of: PhantomData,
        }
    }

    // Whether memory has run out.
    pub fn is_full(&self) -> bool
        ensures { result ≡ self.now.full }
    {
        self.full
    }

    // Returns the log.
    pub fn into_log(self) -> Log
        ensures log { result ≡ self.log }
        ensures adds { self.full ≡ false → Adds B.node B.log (made_since B.log result) result }
        ensures whole { IsWhole result.cells }
        ensures shard { result.cells.shard ≡ B.log.cells.shard }
    {
        self.log
    }
}

impl<B: Beginning> Memory for Recorder<B> {
    ghost use Rattle.serial_elision.specs.Recording.{made_since};

    ghost made = { λ r. made_since B.log r.log };

    ghost stopped = { λ r. r.full };

    ghost served = { λ r. r.log.cells.shard.cells };

    fn read(&mut self, cell: CellId) -> Option<i64> {
        if self.full {
            return None;
        }
        let value = self.log.cells.read(cell);
        let access = Access {
            cell,
            kind: AccessKind::Read,
            value,
        };
        if !self.log.record_access(self.node, access) {
            self.full = true;
            return None;
        }
        Some(value)
    }

    fn write(&mut self, cell: CellId, value: i64) -> bool {
        let access = Access {
            cell,
            kind: AccessKind::Write,
            value,
        };
        if self.full || !self.log.record_access(self.node, access) {
            self.full = true;
            return false;
        }
        self.log.cells.write(cell, value);
        true
    }
}
