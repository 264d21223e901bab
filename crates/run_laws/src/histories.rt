//! Laws of access histories: three kept instances per cell are enough to find its first race.

ghost use Rattle.run_laws.specs.HistoryLaws.{HistoriesFindTheFirstRace, HistoriesDecideRaces, ReportsAreRight};
ghost use Rattle.run_laws.specs.HistoryLaws.{NothingFoundIsSerial, RaceFreeElisionsFindNothing};
ghost use Rattle.run_laws.specs.OrderRaces.{HistoriesOfOrders};

/// For any two total orders of the instances: the history of a cell's accesses finds the first
/// access that conflicts with an earlier one of another instance which is not before it in both
/// orders, and names such an earlier one.
#[tactic(auto, using(crate::proofs::RaceHistories::FirstRaces::histories_of_orders))]
pub fn histories_of_orders()
    ensures { HistoriesOfOrders }
{}

/// In every run and for every cell, what the history finds with the two orders of the run is the
/// first determinacy race of the cell, and it finds nothing exactly when the cell has none.
#[tactic(auto, using(crate::proofs::RaceHistories::RunHistories::histories_find_the_first_race))]
pub fn histories_find_the_first_race()
    ensures { HistoriesFindTheFirstRace }
{}

/// In every run, the histories of all cells find nothing exactly when the run has no determinacy
/// race.
#[tactic(auto, using(crate::proofs::RaceHistories::SilentHistories::histories_decide_races))]
pub fn histories_decide_races()
    ensures { HistoriesDecideRaces }
{}

/// In every run, each report of what the histories find names a race, the earlier access first;
/// each cell with a race has exactly one report, and the reports rise by cell.
pub fn reports_are_right()
    ensures { ReportsAreRight }
{}

/// A finished run in which the histories find nothing is the serial elision, if the last iteration
/// always closes the loop.
#[tactic(auto, using(crate::proofs::RaceHistories::SilentHistories::nothing_found_is_serial))]
pub fn nothing_found_is_serial()
    ensures { NothingFoundIsSerial }
{}

/// If the serial elision of a well-formed pipeline has no determinacy race, the histories of no run
/// find one.
#[tactic(auto, using(crate::proofs::RaceHistories::SilentHistories::race_free_elisions_find_nothing))]
pub fn race_free_elisions_find_nothing()
    ensures { RaceFreeElisionsFindNothing }
{}
