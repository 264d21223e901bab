//! Worked examples of expressions, statements, whole programs and schedules, which the checker
//! computes.

ghost use Rattle.program_laws.specs.ExpressionExamples.{ArithmeticComputes, ArraysAreRead, ComparisonsCompute, DivisorsAreNotZero};
ghost use Rattle.program_laws.specs.ExpressionExamples.{InputsAreTaken, IterationsAreNumbered, NamesAreRead, ResultsOverflow};
ghost use Rattle.program_laws.specs.ExpressionExamples.{OperandsAreInOrder, RightSidesAreLeftOut};
ghost use Rattle.program_laws.specs.StatementExamples.{BlocksEndLocals, BranchesAreTaken, ElementsAreAssigned, EveryOtherWaits};
ghost use Rattle.program_laws.specs.StatementExamples.{LoopsTurn, NamesAreAssigned, StagesAreNamed, StagesTrap};
ghost use Rattle.program_laws.specs.StatementExamples.{WaitsEmit};
ghost use Rattle.program_laws.specs.LoopExamples.{CountingEnds, CountingTraps, LinesArePrinted, PrefixSumsHaveStages, StepsAreCounted};
ghost use Rattle.program_laws.specs.ProgramExamples.{InitAndFinalRun, InitPreparesTheLoop, StepsAreExact, TrappedInitEndsAll};
ghost use Rattle.program_laws.specs.ProgramExamples.{TrapsCloseTheLoop};
ghost use Rattle.program_laws.specs.ScheduleExamples.{SchedulesArePlayed};

/// A loop that counts to 2 emits 1 and 2 and ends by its test.
pub fn counting_ends()
    ensures { CountingEnds }
{}

/// A loop that would count to 3 within a limit of two iterations emits 1 and 2 and traps in the
/// test of iteration 2.
pub fn counting_traps()
    ensures { CountingTraps }
{}

/// A test that is a number takes two steps: one for the number and one for the loop.
pub fn steps_are_counted()
    ensures { StepsAreCounted }
{}

/// The output and the columns of prefix sums that are computed in a second stage that waits.
pub fn prefix_sums_have_stages()
    ensures { PrefixSumsHaveStages }
{}

/// The printed lines of an output and of a trap.
pub fn lines_are_printed()
    ensures { LinesArePrinted }
{}

/// Numbers, a local and a cell.
pub fn names_are_read()
    ensures { NamesAreRead }
{}

/// Elements of an array, and indices outside it.
pub fn arrays_are_read()
    ensures { ArraysAreRead }
{}

/// Each comparison.
pub fn comparisons_compute()
    ensures { ComparisonsCompute }
{}

/// `+`, `-`, `*`, `/`, `%`, negatives and `!`.
pub fn arithmetic_computes()
    ensures { ArithmeticComputes }
{}

/// Results outside `i64`.
pub fn results_overflow()
    ensures { ResultsOverflow }
{}

/// Quotient and remainder by 0.
pub fn divisors_are_not_zero()
    ensures { DivisorsAreNotZero }
{}

/// `&&` and `||`, with and without their right sides.
pub fn right_sides_are_left_out()
    ensures { RightSidesAreLeftOut }
{}

/// The left operand is evaluated first.
pub fn operands_are_in_order()
    ensures { OperandsAreInOrder }
{}

/// `more()` and `take()`, and the end of the input.
pub fn inputs_are_taken()
    ensures { InputsAreTaken }
{}

/// `iter()`.
pub fn iterations_are_numbered()
    ensures { IterationsAreNumbered }
{}

/// Assignments to a local and to a cell.
pub fn names_are_assigned()
    ensures { NamesAreAssigned }
{}

/// Assignments to elements of an array, inside and outside it; the index is evaluated first.
pub fn elements_are_assigned()
    ensures { ElementsAreAssigned }
{}

/// Both branches of an `if`.
pub fn branches_are_taken()
    ensures { BranchesAreTaken }
{}

/// A local of a block, also of the body of a loop, and a local around it.
pub fn blocks_end_locals()
    ensures { BlocksEndLocals }
{}

/// Loops of three turns, of none, and without an end.
pub fn loops_turn()
    ensures { LoopsTurn }
{}

/// `pipe_wait` and `pipe_continue`, with and without a number.
pub fn stages_are_named()
    ensures { StagesAreNamed }
{}

/// Each trap of a stage statement.
pub fn stages_trap()
    ensures { StagesTrap }
{}

/// A stage that only every other iteration has.
pub fn every_other_waits()
    ensures { EveryOtherWaits }
{}

/// Waits with redundant edges, and a wait for an earlier stage.
pub fn waits_emit()
    ensures { WaitsEmit }
{}

/// A budget that is just enough, and one that is one step short.
pub fn steps_are_exact()
    ensures { StepsAreExact }
{}

/// `init`, the loop and `final`, and traps in `init` and in `final`.
pub fn init_and_final_run()
    ensures { InitAndFinalRun }
{}

/// Traps in instance 0 close the loop and leave out `final`.
pub fn traps_close_the_loop()
    ensures { TrapsCloseTheLoop }
{}

/// The loop reads what `init` wrote, and `init` has a budget of its own.
pub fn init_prepares_the_loop()
    ensures { InitPreparesTheLoop }
{}

/// A trap in `init` leaves out the loop and `final`.
pub fn trapped_init_ends_all()
    ensures { TrappedInitEndsAll }
{}

/// Schedules of one worker: which candidates there are, and in which order.
pub fn schedules_are_played()
    ensures { SchedulesArePlayed }
{}
