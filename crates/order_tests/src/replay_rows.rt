//! Runs of dags with the two orders of their instances.

ghost use Rattle.std.specs.Prelude.{◌≡◌, ◌<◌, ◌≤◌, All, length};
ghost use Rattle.std.specs.Bool.{OnTrue};
ghost use Rattle.order_2d.specs.declared.starts.TheConstants.{MOST_STARTS};
ghost use Rattle.order_2d.specs.LogStarts.{IsOwnLog, log_starts};
ghost use Rattle.pipe_model.specs.Orders.GrowingLists.{AreIn};
ghost use Rattle.pipe_model.specs.Orders.OrderList.{list_of_log};
ghost use Rattle.pipe_model.specs.Races.Columns.{IsNodeOf, node_columns};

use crate::plays::{Stages, Turns, played};
use dag_build::dag::Dag;
use om_list::om_list::OmList;
use order_2d::late_list::LateList;
use order_2d::replay::{Replayed, replay};
use order_2d::two_orders::TwoOrders;
use pipe_model::column::ColumnEnd::{Closed, End, Trapped};
use pipe_model::event::RunLog;
use pipe_model::marks::Marks;
use pipe_model::memory::NoMemory;
use pipe_model::node::Kind::{Continue as C, Wait as W};
use pipe_model::node::NodeId;
use pipe_model::orders::Orders;
use pipe_model::trap::Trap;
use std::alloc::Global;

// Both columns wait for stage 1.
const SMALL: [Stages; 2] = [(&[(W, 1)], End), (&[(W, 1)], End)];

// The dags: for each iteration its stages after stage 0, and its end.
static DAGS: [&[Stages]; 9] = [
    &SMALL,
    // The edges into stages 6 and 7 are redundant.
    &[
        (&[(W, 5)], End),
        (&[(W, 5), (W, 6), (W, 7)], End),
        (&[], Closed),
    ],
    // Stage 6 waits for stage 5, the last up to 6.
    &[(&[(W, 5)], End), (&[(W, 6)], End), (&[], Closed)],
    // Stage 4 waits for stage 0, the last up to 4, and is parallel to stage 5.
    &[(&[(W, 5)], End), (&[(W, 4)], End), (&[], Closed)],
    // Stages that the left column skips.
    &[
        (&[(C, 2), (W, 5), (C, 9)], End),
        (&[(W, 3), (W, 4), (C, 7)], End),
        (&[(C, 1), (W, 6), (W, 8)], End),
        (&[(W, 2), (W, 7), (W, 20)], End),
        (&[], Closed),
    ],
    // Redundant edges, after one another and after a stage that continues.
    &[
        (&[(W, 1), (C, 3), (W, 6)], End),
        (&[(W, 3), (W, 4), (W, 5), (C, 6)], End),
        (&[(C, 3), (W, 4), (W, 6), (W, 7)], End),
        (&[(W, 7), (W, 8), (W, 9)], End),
        (&[], Closed),
    ],
    // Iterations that end early, one in its first instance.
    &[
        (&[(W, 1), (W, 2), (W, 3), (W, 4)], End),
        (&[(W, 1)], End),
        (&[(W, 1), (W, 3), (C, 4)], End),
        (&[], End),
        (&[(W, 2), (W, 3)], End),
        (&[], Closed),
    ],
    // An iteration that traps in a later stage, and one in its first instance, which closes the loop.
    &[
        (&[(C, 1), (W, 2), (W, 3)], End),
        (&[(W, 1), (W, 2)], Trapped(Trap::Budget)),
        (&[(W, 1), (C, 2), (W, 3)], End),
        (&[], Trapped(Trap::Overflow)),
    ],
    // Stages that only continue, between columns that wait for them.
    &[
        (&[(W, 10), (W, 20), (W, 30)], End),
        (&[(C, 10), (C, 15), (C, 40)], End),
        (&[(W, 12), (C, 14), (W, 39), (W, 40)], End),
        (&[(C, 5), (W, 14), (W, 50)], Trapped(Trap::Index)),
        (&[(W, 5), (W, 60)], End),
        (&[], Closed),
    ],
];

fn are_before(orders: &mut TwoOrders<LateList>, a: &Marks, b: &Marks) -> bool
    requires a_in { AreIn (list_of_log orders.old.down.log) (list_of_log orders.old.right.log) a.now }
    requires b_in { AreIn (list_of_log orders.old.down.log) (list_of_log orders.old.right.log) b.now }
    ensures unchanged { orders.new ≡ orders.old }
{
    orders.is_down_before(a.down_first, b.down_first)
        && orders.is_right_before(a.right_first, b.right_first)
}

// Whether instance `m` is before each of the instances in both lists exactly if it precedes it.
fn precedes_as_in_lists(
    dag: &Dag,
    orders: &mut TwoOrders<LateList>,
    nodes: &[NodeId],
    marks: &[Marks],
    m: usize,
) -> bool
    requires index { m < length nodes.now }
    requires marks { length marks.now ≡ length nodes.now }
    requires instances { All (IsNodeOf dag.now) nodes.now }
    requires placed { All (AreIn (list_of_log orders.old.down.log) (list_of_log orders.old.right.log)) marks.now }
    ensures unchanged { orders.new ≡ orders.old }
{
    for n in 0..nodes.len() {
        let before = are_before(orders, &marks[m], &marks[n]);
        if before != dag.precedes(nodes[m], nodes[n]) {
            return false;
        }
    }
    true
}

// The number of events of a run, which has no more starts.
fn event_count(log: &RunLog) -> usize
    ensures { length (log_starts log.now.events) ≤ result }
{
    log.events.len()
}

// Whether the lists and the dag agree about each pair of instances.
fn lists_agree(
    dag: &Dag,
    orders: &mut TwoOrders<LateList>,
    nodes: &[NodeId],
    marks: &[Marks],
) -> bool
    requires marks { length marks.now ≡ length nodes.now }
    requires instances { All (IsNodeOf dag.now) nodes.now }
    requires placed { All (AreIn (list_of_log orders.old.down.log) (list_of_log orders.old.right.log)) marks.now }
{
    for m in 0..nodes.len() {
        if !precedes_as_in_lists(dag, orders, nodes, marks, m) {
            return false;
        }
    }
    true
}

// Whether the lists of a run agree with its dag.
fn lists_agree_with(alloc: Global, log: &RunLog, dag: &Dag) -> Result<bool, NoMemory>
    requires own { IsOwnLog log.now }
    requires bounded { length (log_starts log.now.events) ≤ MOST_STARTS }
    requires dag { dag.now ≡ node_columns log.now.columns }
{
    let replayed = replay::<LateList>(alloc, log)?;
    let Replayed {
        mut orders,
        nodes,
        marks,
        rows,
    } = replayed;
    drop(rows);
    Ok(lists_agree(dag, &mut orders, nodes.as_slice(), marks.as_slice()))
}

// Whether the lists of a run and its dag agree about each pair of instances.
fn lists_are_dag(alloc: Global, log: &RunLog) -> Result<bool, NoMemory>
    requires own { IsOwnLog log.now }
    requires bounded { length (log_starts log.now.events) ≤ MOST_STARTS }
{
    let dag = Dag::of(alloc, &log.columns)?;
    let agree = lists_agree_with(alloc, log, &dag);
    drop(dag);
    agree
}

// The number of events of a whole run: each instance starts and ends.
fn whole_count(dag: &[Stages]) -> usize {
    let mut count = 0usize;
    for (stages, _) in dag {
        count = count.saturating_add(2 * (stages.len() + 1));
    }
    count
}

const TURNS: [Turns; 3] = [Turns::Leftmost, Turns::Rightmost, Turns::InTurn];

// Whether all instances of the dag ran, and the lists of the run agree with it.
fn is_whole(alloc: Global, dag: &[Stages], log: &RunLog) -> bool
    requires { IsOwnLog log.now }
{
    log.events.len() == whole_count(dag)
        && event_count(log) <= 1_000
        && lists_are_dag(alloc, log) == Ok(true)
}

// Whether this is so if the dag is played by these turns.
fn agrees(alloc: Global, dag: &[Stages], turns: Turns) -> bool
    requires { length dag.now ≤ 16 }
{
    match played(alloc, dag, turns) {
        Ok(log) => {
            let found = is_whole(alloc, dag, &log);
            drop(log);
            found
        }
        Err(NoMemory) => false,
    }
}

// The first order of turns for which it is not so.
fn first_other_turns(alloc: Global, dag: &[Stages]) -> Option<usize>
    requires { length dag.now ≤ 16 }
{
    for (number, turns) in TURNS.iter().enumerate() {
        if !agrees(alloc, dag, *turns) {
            return Some(number);
        }
    }
    None
}

// The same for a dag that may have too many iterations.
fn first_other_by(alloc: Global, dag: &[Stages]) -> Option<usize> {
    if dag.len() > 16 {
        return Some(TURNS.len());
    }
    first_other_turns(alloc, dag)
}

// The first dag with an order of turns for which it is not so.
fn first_other(alloc: Global, dags: &[&[Stages]]) -> Option<(usize, usize)> {
    for (number, dag) in dags.iter().enumerate() {
        if let Some(turns) = first_other_by(alloc, dag) {
            return Some((number, turns));
        }
    }
    None
}

fn first_other_of_dags(alloc: Global) -> Option<(usize, usize)> {
    first_other(alloc, &DAGS)
}

#[test]
fn lists_agree_with_dags(rt: HostRuntime) {
    let other = first_other_of_dags(rt.alloc());
    assert!(rt; other.is_none(), "{other:?}");
}

// Whether an instance is before another in both plain lists.
fn are_before_in(orders: &TwoOrders<OmList>, a: &Marks, b: &Marks) -> bool
    requires a_in { AreIn (list_of_log orders.now.down.log) (list_of_log orders.now.right.log) a.now }
    requires b_in { AreIn (list_of_log orders.now.down.log) (list_of_log orders.now.right.log) b.now }
{
    let mut down = orders.view();
    let mut right = orders.view();
    down.down_before(a, b) && right.right_before(a, b)
}

// How many instances are after instance `m` in both lists.
fn count_after(orders: &TwoOrders<OmList>, marks: &[Marks], m: usize) -> usize
    requires index { m < length marks.now }
    requires placed { All (AreIn (list_of_log orders.now.down.log) (list_of_log orders.now.right.log)) marks.now }
{
    let mut count = 0usize;
    for n in 0..marks.len() {
        if are_before_in(orders, &marks[m], &marks[n]) {
            count = count.saturating_add(1);
        }
    }
    count
}

// An instance by iteration and index, its elements in the down-first and in the right-first list, and
// how many instances it precedes.
type Row = (u32, u32, u32, u32, usize);

// Whether the instances of a run are these, with their elements and with their places in plain lists.
fn are_rows(replayed: &Replayed<OmList>, rows: &[Row]) -> bool
    requires placed { All (AreIn (list_of_log replayed.now.orders.down.log) (list_of_log replayed.now.orders.right.log))
        replayed.now.marks.items }
{
    let nodes = replayed.nodes.as_slice();
    let marks = replayed.marks.as_slice();
    if nodes.len() != rows.len() || marks.len() != rows.len() {
        return false;
    }
    for k in 0..rows.len() {
        let (x, m) = (nodes[k], marks[k]);
        let after = count_after(&replayed.orders, marks, k);
        if (x.iteration, x.index, m.down_first, m.right_first, after) != rows[k] {
            return false;
        }
    }
    true
}

// The rows of the small dag, of whose instances two are parallel.
const ROWS: [Row; 4] = [
    (0, 0, 0, 0, 3),
    (1, 0, 2, 1, 1),
    (0, 1, 1, 2, 1),
    (1, 1, 3, 5, 0),
];

// Whether a run has the rows of the small dag.
fn has_rows(alloc: Global, log: &RunLog) -> bool
    requires own { IsOwnLog log.now }
    requires bounded { length (log_starts log.now.events) ≤ MOST_STARTS }
{
    match replay(alloc, log) {
        Ok(replayed) => {
            let found = are_rows(&replayed, &ROWS);
            drop(replayed);
            found
        }
        Err(NoMemory) => false,
    }
}

// The instances start head by head.
fn small_has_rows(alloc: Global) -> bool {
    match played(alloc, &SMALL, Turns::Rightmost) {
        Ok(log) => {
            let found = event_count(&log) <= 1_000 && has_rows(alloc, &log);
            drop(log);
            found
        }
        Err(NoMemory) => false,
    }
}

#[test]
fn the_small_dag_has_its_rows(rt: HostRuntime) {
    assert!(rt; small_has_rows(rt.alloc()));
}
