//! The pipelines of accepted programs: of all that break no rule, whether or not a source spells them.

ghost use Rattle.program_laws.specs.WellFormedPrograms.{ProgramsAreWellFormed};

/// Stage numbers rise in each iteration of an accepted program, only an instance 0 closes the loop,
/// and the iteration after the last allowed one always closes it.
pub fn programs_are_well_formed()
    ensures { ProgramsAreWellFormed }
{}
