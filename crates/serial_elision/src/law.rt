//! A law of the traps of runs.

ghost use Rattle.serial_elision.specs.ColumnTraps.{RunTrapsAreThoseOfColumns};

/// The trap of the least iteration that trapped in a run, finished or not, is the one that the
/// columns of the run show.
#[tactic(auto, using(crate::proofs::RunTraps::run_traps_are_those_of_columns))]
pub fn run_traps_are_those_of_columns()
    ensures { RunTrapsAreThoseOfColumns }
{}
