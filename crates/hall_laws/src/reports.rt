//! The histories and the cells of the shards of a closed hall are the run's.

ghost use Rattle.hall_laws.specs.HallReports.{HistoriesFindRaces, ShardStatesAreOfRuns, ShardsFindAll, SlotsAreFound};

/// What the histories of the shards have found are the first races of the run's cells: the races of
/// one shard (`slots`), those of all shards (`shards`), and their reports, which are right for the
/// run's own dag (`races`).
pub fn histories_find_races()
    ensures slots { SlotsAreFound }
    ensures shards { ShardsFindAll }
    ensures races { HistoriesFindRaces }
{}

/// The cells of a shard after the accesses in its log are its cells after the run.
pub fn shard_states_are_of_runs()
    ensures { ShardStatesAreOfRuns }
{}
