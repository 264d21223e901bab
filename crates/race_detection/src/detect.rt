//! The races of a logged run.

ghost use Rattle.std.specs.Prelude.{◌≡◌, ◌≤◌, ◌<◌, ◌^◌, ◌++◌, ◌∷◌, ℕ, All, List, [], IfOk, length, OnOk};
ghost use Rattle.order_2d.specs.LogStarts.{IsControlLog, IsOwnLog, log_columns, log_starts};
ghost use Rattle.order_2d.specs.declared.starts.TheConstants.{MOST_STARTS};
ghost use Rattle.pipe_model.specs.Races.Columns.{IsNodeOf, node_columns};
ghost use Rattle.pipe_model.specs.declared.access.NodeAccess.{NodeAccess as PlainAccess};
ghost use Rattle.race_detection.specs.FoundReports.{found_reports};
ghost use Rattle.race_detection.specs.LogAccesses.{access_by, log_accesses};
ghost use Rattle.race_detection.specs.NotedRuns.{AreListsOf, HaveNoted, IsReplayOf, found_below, nothing_noted};

use crate::logged_accesses::{cell_bound, count_start, last_instance};
use crate::started_run::{StartedRun, note};
use access_history::history::{Found, History};
use order_2d::late_list::LateList;
use order_2d::replay::{Replayed, replay};
use order_2d::two_orders::TwoOrders;
use pipe_model::access::{CellId, NodeAccess};
use pipe_model::event::{Event, RunLog};
use pipe_model::memory::NoMemory;
use pipe_model::report::Reports;
use race_report::gather::gather;
use std::alloc::Global;

// The histories of `cells` cells that were not accessed.
fn empty_histories(alloc: Global, cells: usize) -> Result<Vec<History>, NoMemory>
    ensures { IfOk result (λ histories. histories.items ≡ nothing_noted cells) }
{
    let mut histories = Vec::with_capacity(alloc, cells)?;
    for _ in 0..cells {
        histories.push(History::new())?;
    }
    Ok(histories)
}

// Notes an access in the history of its cell.
fn note_access(
    run: &StartedRun<'_>,
    orders: &mut TwoOrders<LateList>,
    access: NodeAccess,
    histories: &mut Vec<History>,
)
    requires run { IsReplayOf (node_columns run.now.columns.now) run.now.nodes run.now.rows.items }
    requires lists { AreListsOf (node_columns run.now.columns.now) run.now.nodes orders.old }
    requires inside { IsNodeOf (node_columns run.now.columns.now) access.node }
    requires cell { access.access.cell.0 < length histories.old.items }
    requires noted { (before : List PlainAccess) × HaveNoted (node_columns run.now.columns.now) run.now.nodes before
        histories.old.items }
    ensures noted { (before : List PlainAccess) → HaveNoted (node_columns run.now.columns.now) run.now.nodes before
        histories.old.items
        → HaveNoted (node_columns run.now.columns.now) run.now.nodes (before ++ access ∷ []) histories.new.items }
    ensures count { length histories.new.items ≡ length histories.old.items }
    ensures lists { AreListsOf (node_columns run.now.columns.now) run.now.nodes orders.new }
{
    let history = &mut histories[access.access.cell.0 as usize];
    note(run, orders, history, access);
}

// Notes the access of an event, if it is one; `counts` has the number of instances that each
// iteration has started before it.
fn note_event(
    run: &StartedRun<'_>,
    orders: &mut TwoOrders<LateList>,
    event: &Event,
    counts: &[u32],
    histories: &mut Vec<History>,
)
    requires run { IsReplayOf (node_columns run.now.columns.now) run.now.nodes run.now.rows.items }
    requires lists { AreListsOf (node_columns run.now.columns.now) run.now.nodes orders.old }
    requires inside { All (λ (a : PlainAccess). IsNodeOf (node_columns run.now.columns.now) a.node) (access_by counts.now event.now) }
    requires cells { All (λ (a : PlainAccess). a.access.cell.0 < length histories.old.items) (access_by counts.now event.now) }
    requires noted { (before : List PlainAccess) × HaveNoted (node_columns run.now.columns.now) run.now.nodes before
        histories.old.items }
    ensures noted { (before : List PlainAccess) → HaveNoted (node_columns run.now.columns.now) run.now.nodes before
        histories.old.items
        → HaveNoted (node_columns run.now.columns.now) run.now.nodes (before ++ access_by counts.now event.now)
        histories.new.items }
    ensures count { length histories.new.items ≡ length histories.old.items }
    ensures lists { AreListsOf (node_columns run.now.columns.now) run.now.nodes orders.new }
{
    match event {
        Event::Access(iteration, access) => {
            let made = NodeAccess {
                node: last_instance(*iteration, counts),
                access: *access,
            };
            note_access(run, orders, made, histories);
        }
        Event::Begin(_)
        | Event::Advance(_, _, _)
        | Event::Enter(_)
        | Event::Finish(_, _)
        | Event::Stop => {}
    }
}

// Notes each access of the events, in order, in the history of its cell. Returns an error only if
// memory runs out.
fn note_all(
    alloc: Global,
    run: &StartedRun<'_>,
    orders: &mut TwoOrders<LateList>,
    events: &[Event],
    histories: &mut Vec<History>,
) -> Result<(), NoMemory>
    requires run { IsReplayOf (node_columns run.now.columns.now) run.now.nodes run.now.rows.items }
    requires lists { AreListsOf (node_columns run.now.columns.now) run.now.nodes orders.old }
    requires control { IsControlLog events.now }
    requires bounded { length (log_starts events.now) ≤ MOST_STARTS }
    requires inside { All (λ (a : PlainAccess). IsNodeOf (node_columns run.now.columns.now) a.node) (log_accesses events.now) }
    requires cells { All (λ (a : PlainAccess). a.access.cell.0 < length histories.old.items) (log_accesses events.now) }
    requires empty { HaveNoted (node_columns run.now.columns.now) run.now.nodes [] histories.old.items }
    ensures noted { OnOk result (HaveNoted (node_columns run.now.columns.now) run.now.nodes (log_accesses events.now)
        histories.new.items) }
    ensures count { OnOk result (length histories.new.items ≡ length histories.old.items) }
{
    let mut counts = Vec::with_capacity(alloc, run.columns.len())?;
    for event in events {
        note_event(run, orders, event, &counts, histories);
        count_start(event, &mut counts)?;
    }
    Ok(())
}

// The races that the histories have found, by cell.
fn found_races(alloc: Global, histories: &[History]) -> Result<Vec<(CellId, Found)>, NoMemory>
    requires { length histories.now ≤ 2 ^ 32 }
    ensures { IfOk result (λ found. found.items ≡ found_below histories.now (length histories.now)) }
{
    let mut found = Vec::new(alloc);
    for (cell, history) in histories.iter().enumerate() {
        if let Some(race) = history.report {
            found.push((CellId(cell as u32), race))?;
        }
    }
    Ok(found)
}

/// Returns the first race that the access history of each cell finds, rising by cell. The events
/// other than accesses must be a run of the control part, the columns those that they make, and each
/// access one of an iteration that has begun. Takes time linear in the events, but for new labels of
/// the order lists, and memory for the instances and for the greatest number of an accessed cell.
/// Returns an error only if memory runs out.
pub fn detect(alloc: Global, run_log: &RunLog) -> Result<Reports, NoMemory>
    requires own { IsOwnLog run_log.now }
    requires bounded { length (log_starts run_log.now.events) ≤ MOST_STARTS }
    requires inside { All (λ (a : PlainAccess). IsNodeOf (log_columns run_log.now.events) a.node) (log_accesses run_log.now.events) }
    ensures { IfOk result (λ reports. reports ≡ found_reports (log_columns run_log.now.events)
        (log_starts run_log.now.events) (log_accesses run_log.now.events)) }
{
    let replayed = replay::<LateList>(alloc, run_log)?;
    let Replayed {
        mut orders,
        nodes,
        marks,
        rows,
    } = replayed;
    drop(marks);
    let run = StartedRun {
        columns: &run_log.columns,
        nodes,
        rows,
    };
    let events = run_log.events.as_slice();
    let mut histories = empty_histories(alloc, cell_bound(events))?;
    note_all(alloc, &run, &mut orders, events, &mut histories)?;
    let found = found_races(alloc, histories.as_slice())?;
    gather(alloc, found.as_slice(), run.columns)
}
