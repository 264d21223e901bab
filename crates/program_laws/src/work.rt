//! Bounds on the turns of loops, on the work of a program, on the length of its runs, and on the turns
//! of its schedules.

ghost use Rattle.program_laws.specs.LoopTurns.{MoreTurnsChangeNoPart, MoreTurnsChangeNothing};
ghost use Rattle.program_laws.specs.WorkBounds.{ProgramInstancesAreBounded, ProgramRunsAreBounded, ProgramsHaveBoundedWork};
ghost use Rattle.program_laws.specs.WorkBounds.{SchedulesFinish};

/// A larger bound on the turns of loops does not change a program: its instances have no steps for
/// more turns.
#[tactic(auto, using(crate::proofs::SameTurns::more_turns_change_nothing, crate::proofs::SameTurns::more_turns_change_no_part))]
pub fn more_turns_change_nothing()
    ensures iterations { MoreTurnsChangeNothing }
    ensures parts { MoreTurnsChangeNoPart }
{}

/// Each instance of a program makes at most two accesses a step, and an iteration has at most
/// `stages` instances.
#[tactic(auto, using(crate::proofs::BoundedWork::programs_have_bounded_work))]
pub fn programs_have_bounded_work()
    ensures { ProgramsHaveBoundedWork }
{}

/// A run of an accepted program that was not stopped has at most `2 * steps + 2` events for each of
/// at most `iterations * stages + 1` instances.
pub fn program_runs_are_bounded()
    ensures { ProgramRunsAreBounded }
{}

/// A run of an accepted program has at most `iterations * stages + 1` instances.
#[tactic(auto, using(crate::proofs::InstanceBounds::program_instances_are_bounded))]
pub fn program_instances_are_bounded()
    ensures { ProgramInstancesAreBounded }
{}

/// With `2 * steps + 2` turns for each instance a schedule of an accepted program finishes.
pub fn schedules_finish()
    ensures { SchedulesFinish }
{}
