//! Laws of the cells that programs access: the input's cursor, the output, and the declared cells.

ghost use Rattle.program_laws.specs.DeclaredCells.{ActionsAccessBelow, InitAccessesItsCells, ProgramRunsAccessTheirCells};
ghost use Rattle.program_laws.specs.DeclaredCells.{ProgramsAccessTheirCells, RunsAccessBelow};

/// `init`, the iterations and `final` of a program that breaks no rule access the program's cells
/// only, whatever they read; so the accesses of `init` are to these cells.
#[tactic(auto, using(crate::proofs::DeclaredCells::programs_access_their_cells, crate::proofs::DeclaredCells::init_accesses_its_cells))]
pub fn programs_access_their_cells()
    ensures parts { ProgramsAccessTheirCells }
    ensures init { InitAccessesItsCells }
{}

/// The accesses of a run are to the cells that its iterations access; so those of a run of a program
/// that breaks no rule are to the program's cells.
pub fn runs_access_their_cells()
    ensures actions { ActionsAccessBelow }
    ensures runs { RunsAccessBelow }
    ensures programs { ProgramRunsAccessTheirCells }
{}
