//! The memory that a machine reads and writes.

use pipe_model::access::CellId;

/// A memory of cells, which may stop, and then refuses accesses.
pub trait Memory {
    ghost use Rattle.std.specs.Prelude.{◌≡◌, ◌++◌, ◌∷◌, ◌<◌, [], IfSome, IfNone, List, ℕ, Bool, not, is_none};
    ghost use Rattle.std.specs.Bool.{OnTrue, OnFalse};
    ghost use Rattle.pipe_model.specs.declared.access.Access.{Access};
    ghost use Rattle.pipe_model.specs.Pipelines.Behaviour.{read_access, write_access};

    /// The accesses so far.
    ghost made: { Self → List Access };

    /// Whether it has stopped.
    ghost stopped: { Self → Bool };

    /// How many cells it serves: those with a number below this.
    ghost served: { Self → ℕ };

    /// Returns the cell's value, or `None` exactly if the memory has stopped.
    fn read(&mut self, cell: CellId) -> Option<i64>
        requires { cell.0 < served self.old }
        ensures some { IfSome result (λ v. made self.new ≡ made self.old ++ read_access cell.0 v ∷ []) }
        ensures none { IfNone result (made self.new ≡ made self.old) }
        ensures stops { stopped self.new ≡ is_none result }
        ensures serves { served self.new ≡ served self.old };

    /// Gives the cell a value. Returns `false`, and leaves the cell as it is, exactly if the memory
    /// has stopped.
    fn write(&mut self, cell: CellId, value: i64) -> bool
        requires { cell.0 < served self.old }
        ensures yes { OnTrue result (made self.new ≡ made self.old ++ write_access cell.0 value ∷ []) }
        ensures no { OnFalse result (made self.new ≡ made self.old) }
        ensures stops { stopped self.new ≡ not result }
        ensures serves { served self.new ≡ served self.old };
}
