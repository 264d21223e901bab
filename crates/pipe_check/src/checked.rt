//! Programs that break no rule.

ghost use Rattle.std.specs.Prelude.{◌≡◌, ◌≤◌, ◌+◌, None};
ghost use Rattle.pipe_check.specs.Accepted.{IsChecked};
ghost use Rattle.pipe_model.specs.declared.bounds.TheConstants.{MOST_CELLS};
ghost use Rattle.pipe_model.specs.Language.CheckingRules.{cell_total, fault_of};
ghost use Rattle.pipe_model.specs.Language.SpellablePrograms.{IsSpellable};
ghost use Rattle.pipe_model.specs.Language.SyntaxTree.{tree_of};

use pipe_model::tree::Program;
use std::marker::Model;

/// A program that breaks no rule. Contracts see the program.
#[derive(Drop)]
pub struct Checked {
    program: Program,
    cells: u32,
}

impl Model for Checked {
    ghost use Rattle.pipe_model.specs.declared.tree.Program.{Program};
    ghost use Rattle.pipe_model.specs.contracts.tree.Expr as expr;
    ghost use Rattle.pipe_model.specs.contracts.tree.Stmt as stmt;
    ghost use Rattle.std.specs.Coded.{codes};

    ghost Value = { Program };

    ghost coded = { Prim.hlevel (codes, expr.the_row.coded, stmt.the_row.coded) };

    ghost use Rattle.pipe_check.specs.Accepted.{IsChecked};

    ghost view = { λ c. c.program };

    ghost invariant = { λ c. IsChecked c.program c.cells };
}

impl Checked {
    /// Returns the program as one that is checked; it has `cells` cells and breaks no rule.
    pub(crate) fn new(program: Program, cells: u32) -> Self
        requires { IsChecked program cells }
        ensures { result ≡ program }
    {
        Checked { program, cells }
    }

    /// Returns the program. A source may spell it, and it breaks no rule.
    pub fn program(&self) -> &Program
        ensures program { result.now ≡ self.now }
        ensures spellable { IsSpellable (tree_of self.now) }
        ensures obeys { fault_of (tree_of self.now) ≡ None }
    {
        &self.program
    }

    /// Returns the number of cells of the program, the elements of arrays and the cells `input` and
    /// `output` counted: 2 to 65,538.
    pub fn cell_count(&self) -> u32
        ensures count { result ≡ cell_total self.now.cells + 2 }
        ensures bounded { result ≤ MOST_CELLS + 2 }
    {
        self.cells
    }
}
