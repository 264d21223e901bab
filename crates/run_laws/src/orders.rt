//! Laws of the two orders in which the detector keeps the instances of a run. What holds in every
//! run also holds in every run of the control part alone, whose events are not accesses.

ghost use Rattle.run_laws.specs.OrderLaws.{LeftParentsAreFound, EntriesInsertElements, StartedNodesAreOwnNodes};
ghost use Rattle.run_laws.specs.OrderLaws.{BothOrdersOfStarts, BothOrdersArePrecedes, PlaceholdersAreTakenOnce};
ghost use Rattle.run_laws.specs.OrderLaws.{LeftParentsAreSources, LogsGrowAtTheirEnd, LogsNameEarlierElements};
ghost use Rattle.run_laws.specs.OrderLaws.{LongerLogsKeepTheOrder};

/// The events of a run start the instances of its own columns, each once, and each after all that
/// have an edge to it.
#[tactic(auto, using(crate::proofs::ListOrders::RunOrders::started_nodes_are_own_nodes))]
pub fn started_nodes_are_own_nodes()
    ensures { StartedNodesAreOwnNodes }
{}

/// For any columns, and any list of starts that respects their edges: one started instance is
/// before another in both lists exactly when it precedes it in the dag.
pub fn both_orders_of_starts()
    ensures { BothOrdersOfStarts }
{}

/// In every run, one instance is before another in both lists exactly when it precedes it in the
/// run's own dag.
#[tactic(auto, using(crate::proofs::ListOrders::RunOrders::both_orders_are_precedes))]
pub fn both_orders_are_precedes()
    ensures { BothOrdersArePrecedes }
{}

/// In every run, no two instances take the same element of a list.
#[tactic(auto, using(crate::proofs::ListOrders::RunOrders::placeholders_are_taken_once))]
pub fn placeholders_are_taken_once()
    ensures { PlaceholdersAreTakenOnce }
{}

/// In every run, the left parent of an instance is the source of the edge from the column to its
/// left, and there is none if that source already precedes the instance above.
#[tactic(auto, using(crate::proofs::ListOrders::RunOrders::left_parents_are_sources))]
pub fn left_parents_are_sources()
    ensures { LeftParentsAreSources }
{}

/// The left parent of an instance that waits is the index that a search of the left column finds,
/// if that is after the last index that already precedes the instance above. An instance that
/// continues without waiting has none.
#[tactic(auto, using(crate::proofs::ListOrders::StableLeftParents::left_parents_are_found))]
pub fn left_parents_are_found()
    ensures { LeftParentsAreFound }
{}

/// Each event of a run adds two entries at the end of both insertion logs for the instance that it
/// starts, and none if it starts none.
#[tactic(auto, using(crate::proofs::ListOrders::RunOrders::logs_grow_at_their_end))]
pub fn logs_grow_at_their_end()
    ensures { LogsGrowAtTheirEnd }
{}

/// In every run, each entry of both insertion logs names an element that is already in the list.
#[tactic(auto, using(crate::proofs::ListOrders::LongerLogs::logs_name_earlier_elements))]
pub fn logs_name_earlier_elements()
    ensures { LogsNameEarlierElements }
{}

/// A longer insertion log keeps the order of the elements that were there.
#[tactic(auto, using(crate::proofs::ListOrders::LongerLogs::longer_logs_keep_the_order))]
pub fn longer_logs_keep_the_order()
    ensures { LongerLogsKeepTheOrder }
{}

/// One more entry at the end of an insertion log inserts the next element right after the element
/// that it names.
pub fn entries_insert_elements()
    ensures { EntriesInsertElements }
{}
