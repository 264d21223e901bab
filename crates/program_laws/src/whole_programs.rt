//! Laws of whole programs: `init`, the loop, `final`.

ghost use Rattle.program_laws.specs.ProgramHeadline.{RunsMeetTheHeadline};
ghost use Rattle.program_laws.specs.ProgramRunLaws.{AcceptedProgramsMeetTheElision, LoopsAlone, NoInitNoAccesses, PartsAreOneInstance};
ghost use Rattle.program_laws.specs.ProgramRunLaws.{PlayedWhereFinalRan, ProgramElisionIsARun, ProgramRacesAreThoseOfTheElision};
ghost use Rattle.program_laws.specs.ProgramRunLaws.{RaceFreeProgramRunsAreSerial, RaceFreeRunsHaveOutcomes};

/// A finished run of a program without a determinacy race has the columns, the output and the trap
/// of the program's serial elision, with the accesses of `init` and `final`.
#[tactic(auto, using(crate::proofs::ProgramRuns::race_free_program_runs_are_serial))]
pub fn race_free_program_runs_are_serial()
    ensures { RaceFreeProgramRunsAreSerial }
{}

/// A finished run of a program has a determinacy race exactly if the program's serial elision has
/// one.
#[tactic(auto, using(crate::proofs::ProgramRuns::program_races_are_those_of_the_elision))]
pub fn program_races_are_those_of_the_elision()
    ensures { ProgramRacesAreThoseOfTheElision }
{}

/// The serial elision of a program is a finished run of it, for every limit of at least 1.
pub fn program_elision_is_a_run()
    ensures { ProgramElisionIsARun }
{}

/// Each finished run of an accepted program on its input has a race exactly if the serial elision
/// has one, and otherwise its columns, output and trap; and it never has more than `limit`
/// iterations alive.
pub fn accepted_programs_meet_the_elision()
    ensures { AcceptedProgramsMeetTheElision }
{}

/// A program without `init` and `final` is its loop.
#[tactic(auto, using(crate::proofs::ProgramElisions::no_init_no_accesses, crate::proofs::ProgramElisions::loops_alone))]
pub fn loops_alone()
    ensures without_init { NoInitNoAccesses }
    ensures without_both { LoopsAlone }
{}

/// `init` and `final` of an accepted program name no stage, so each is one instance with its own
/// budget.
pub fn parts_are_one_instance()
    ensures { PartsAreOneInstance }
{}

/// If `final` ran after a run, the output and the trap are the whole program's.
#[tactic(auto, using(crate::proofs::ProgramRuns::played_where_final_ran))]
pub fn played_where_final_ran()
    ensures { PlayedWhereFinalRan }
{}

/// A finished run of a pipeline without a determinacy race has the traces, columns, output and trap
/// of the pipeline's serial elision.
#[tactic(auto, using(crate::proofs::ProgramRuns::race_free_runs_have_outcomes))]
pub fn race_free_runs_have_outcomes()
    ensures { RaceFreeRunsHaveOutcomes }
{}

/// A call that has made a finished run of an accepted program and has right reports of it meets the
/// headline if it prints the reports, or else the run's own output and trap.
pub fn runs_meet_the_headline()
    ensures { RunsMeetTheHeadline }
{}
