//! Fronts of accesses: an access is compared with all earlier ones at once.

ghost use Rattle.std.specs.Prelude.{◌≡◌, ◌<◌, ◌≤◌, length};
ghost use Rattle.dag_build.specs.AccessFronts.{front_for, joined_fronts};
ghost use Rattle.dag_build.specs.Jumps.{MovesTo};

use crate::dag::Dag;
use pipe_model::access::AccessKind;

/// In a column, an index such that all earlier writes lead to every instance from it on, and an
/// index such that all earlier accesses do.
#[derive(Clone, Copy)]
pub struct Fronts {
    pub column: usize,
    pub writes: usize,
    pub accesses: usize,
}

impl Fronts {
    /// Returns the front of the accesses that conflict with an access of this kind.
    pub fn front_for(self, kind: AccessKind) -> usize
        ensures { result ≡ front_for self kind }
    {
        match kind {
            AccessKind::Read => self.writes,
            AccessKind::Write => self.accesses,
        }
    }

    /// Returns the fronts with one more access of this kind, whose own front in the column is
    /// `here`.
    pub fn joined(self, kind: AccessKind, here: usize) -> Fronts
        ensures { result ≡ joined_fronts self kind here }
    {
        let writes = match kind {
            AccessKind::Read => self.writes,
            AccessKind::Write => self.writes.max(here),
        };
        Fronts {
            column: self.column,
            writes,
            accesses: self.accesses.max(here),
        }
    }

    /// Returns the fronts in column `to`, which must not be an earlier column.
    pub fn moved(self, dag: &Dag, to: usize) -> Fronts
        requires order { self.column ≤ to }
        requires within { to < length dag.now }
        ensures column { result.column ≡ to }
        ensures writes { MovesTo dag.now self.column self.writes to result.writes }
        ensures accesses { MovesTo dag.now self.column self.accesses to result.accesses }
    {
        Fronts {
            column: to,
            writes: dag.moved(self.column, self.writes, to),
            accesses: dag.moved(self.column, self.accesses, to),
        }
    }
}
