//! Laws of runs and the serial elision: without a race, every order computes what the serial order
//! computes.

ghost use Rattle.run_laws.specs.SerialLaws.{SerialElisionIsARun, RaceFreeRunsAreSerial};
ghost use Rattle.run_laws.specs.SerialLaws.{RaceFreeElisionsHaveRaceFreeRuns, RacesAreThoseOfTheElision};

/// The serial elision of a well-formed pipeline is a finished run for every limit of at least 1:
/// its events are allowed one after the other, and they make its columns and its accesses.
#[tactic(auto, using(crate::proofs::Elision::SerialRun::serial_elision_is_a_run))]
pub fn serial_elision_is_a_run()
    ensures { SerialElisionIsARun }
{}

/// A finished run without a determinacy race is the serial elision, if the last iteration always
/// closes the loop: it has the same columns and ends, and writes to each cell the same values in
/// the same order. Then the serial elision has no race either.
#[tactic(auto, using(crate::proofs::Elision::RaceFreeRuns::race_free_runs_are_serial))]
pub fn race_free_runs_are_serial()
    ensures { RaceFreeRunsAreSerial }
{}

/// If the serial elision of a well-formed pipeline has no determinacy race, no run has one,
/// finished or not.
#[tactic(auto, using(crate::proofs::Elision::RaceFreeElisions::race_free_elisions_have_race_free_runs))]
pub fn race_free_elisions_have_race_free_runs()
    ensures { RaceFreeElisionsHaveRaceFreeRuns }
{}

/// A finished run of a well-formed pipeline has no determinacy race exactly when the serial elision
/// has none: whether there is a race does not depend on the order of the run.
#[tactic(auto, using(crate::proofs::Elision::RaceFreeElisions::races_are_those_of_the_elision))]
pub fn races_are_those_of_the_elision()
    ensures { RacesAreThoseOfTheElision }
{}
