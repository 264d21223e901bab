//! A dag of three columns, drawn by hand, and the races of accesses of two columns. The columns are
//! built here, since a program that can run today has the same kinds of stages in each iteration.

ghost use Rattle.std.specs.Prelude.{◌≡◌, ◌<◌, ◌<ℤ◌, ℕ, All, length};
ghost use Rattle.std.specs.Bool.{OnTrue};
ghost use Rattle.pipe_model.specs.Races.Columns.{node_at, nodes_at, IsNodeOf, IsRising, node_columns};
ghost use Rattle.dag_build.specs.NodeColumns.{AreRising, IsAccessOf};

use dag_build::dag::Dag;
use pipe_model::access::AccessKind::{Read, Write};
use pipe_model::access::{Access, AccessKind, CellId, NodeAccess, NodeAccesses};
use pipe_model::column::{Column, Columns};
use pipe_model::list::ListOf;
use pipe_model::memory::NoMemory;
use pipe_model::node::Kind::{Continue as C, Wait as W, Zero as Z};
use pipe_model::node::{Kind, Node, NodeId};
use pipe_model::report::Report;
use std::alloc::Global;

// Whether the stage number at index `k` is greater than all before it.
fn is_above(nodes: &[Node], k: usize) -> bool
    requires { k < length nodes.now }
    ensures { OnTrue result ((j : ℕ) → j < k → (node_at nodes.now j).number <ℤ (node_at nodes.now k).number) }
{
    for j in 0..k {
        if nodes[k].number <= nodes[j].number {
            return false;
        }
    }
    true
}

fn is_rising(nodes: &[Node]) -> bool
    ensures { OnTrue result (IsRising nodes.now) }
{
    for k in 0..nodes.len() {
        if !is_above(nodes, k) {
            return false;
        }
    }
    true
}

fn are_rising(columns: &[Column]) -> bool
    ensures { OnTrue result (AreRising (node_columns columns.now)) }
{
    for column in columns {
        if !is_rising(column.nodes.as_slice()) {
            return false;
        }
    }
    true
}

fn nodes_of(columns: &[Column], i: usize) -> &[Node]
    ensures { result.now ≡ nodes_at (node_columns columns.now) i }
{
    match columns.get(i) {
        Some(column) => column.nodes.as_slice(),
        None => &[],
    }
}

fn is_node(columns: &[Column], x: NodeId) -> bool
    ensures { OnTrue result (IsNodeOf (node_columns columns.now) x) }
{
    let i = x.iteration as usize;
    i < columns.len() && (x.index as usize) < nodes_of(columns, i).len()
}

fn are_accesses(columns: &[Column], accesses: &[NodeAccess]) -> bool
    ensures { OnTrue result (All (IsAccessOf (node_columns columns.now)) accesses.now) }
{
    for access in accesses {
        if !is_node(columns, access.node) {
            return false;
        }
    }
    true
}

// The instances of a column, each by its kind and its stage number.
type Stages = &'static [(Kind, i64)];

fn column(alloc: Global, stages: Stages) -> Result<Column, NoMemory> {
    let mut nodes = ListOf::new(alloc);
    for (kind, number) in stages {
        nodes.push(Node {
            number: *number,
            kind: *kind,
        })?;
    }
    Ok(Column { nodes, end: None })
}

fn columns(alloc: Global, lists: &[Stages]) -> Result<Columns, NoMemory> {
    let mut columns = ListOf::new(alloc);
    for stages in lists {
        columns.push(column(alloc, stages)?)?;
    }
    Ok(columns)
}

// Stages 3 and 4 of the second column both wait for stage 2 of the first, so the edge to stage 4 is
// redundant; stage 6 of the third column waits for stage 4 of the second.
const DRAWN: [Stages; 3] = [
    &[(Z, 0), (C, 2), (W, 5)],
    &[(Z, 0), (W, 3), (W, 4), (C, 7)],
    &[(Z, 0), (C, 1), (W, 6)],
];

// The instances of the columns, by iteration and index, and for each whether it precedes each of the
// instances.
const PRECEDES: [(u32, u32, &[u8; 10]); 10] = [
    (0, 0, b"0111111111"),
    (0, 1, b"0010111001"),
    (0, 2, b"0000000000"),
    (1, 0, b"0000111111"),
    (1, 1, b"0000011001"),
    (1, 2, b"0000001001"),
    (1, 3, b"0000000000"),
    (2, 0, b"0000000011"),
    (2, 1, b"0000000001"),
    (2, 2, b"0000000000"),
];

// Whether an instance precedes another one, by the dag of the columns; nothing if one is not there.
fn precedes(dag: &Dag, columns: &[Column], a: NodeId, b: NodeId) -> Option<bool>
    requires { dag.now ≡ node_columns columns.now }
{
    if !is_node(columns, a) || !is_node(columns, b) {
        return None;
    }
    Some(dag.precedes(a, b))
}

// Whether an instance precedes exactly those of the instances that have a 1 in the row.
fn precedes_those_of(dag: &Dag, columns: &[Column], a: NodeId, row: &[u8; 10]) -> bool
    requires { dag.now ≡ node_columns columns.now }
{
    for (k, (iteration, index, _)) in PRECEDES.iter().enumerate() {
        let b = NodeId {
            iteration: *iteration,
            index: *index,
        };
        if precedes(dag, columns, a, b) != Some(row[k] == b'1') {
            return false;
        }
    }
    true
}

// The first instance that precedes others than those of its row.
fn first_other(dag: &Dag, columns: &[Column]) -> Option<usize>
    requires { dag.now ≡ node_columns columns.now }
{
    for (k, (iteration, index, row)) in PRECEDES.iter().enumerate() {
        let a = NodeId {
            iteration: *iteration,
            index: *index,
        };
        if !precedes_those_of(dag, columns, a, row) {
            return Some(k);
        }
    }
    None
}

// The same for the dag of these columns; the number of rows if they do not rise, or memory runs out.
fn first_other_of(alloc: Global, columns: &Columns) -> Option<usize> {
    if !are_rising(columns.as_slice()) {
        return Some(PRECEDES.len());
    }
    match Dag::of(alloc, columns) {
        Ok(dag) => {
            let other = first_other(&dag, columns.as_slice());
            drop(dag);
            other
        }
        Err(NoMemory) => Some(PRECEDES.len()),
    }
}

fn first_other_drawn(alloc: Global) -> Option<usize> {
    match columns(alloc, &DRAWN) {
        Ok(columns) => {
            let other = first_other_of(alloc, &columns);
            drop(columns);
            other
        }
        Err(NoMemory) => Some(PRECEDES.len()),
    }
}

#[test]
fn instances_precede(rt: HostRuntime) {
    let other = first_other_drawn(rt.alloc());
    assert!(rt; other.is_none(), "{other:?}");
}

// Accesses by iteration, index, cell and kind.
const ACCESSES: [(u32, u32, u32, AccessKind); 15] = [
    // No races: a write and a read in order, and two reads.
    (0, 0, 6, Write),
    (1, 0, 6, Read),
    (0, 1, 7, Read),
    (1, 1, 7, Read),
    // The first race is with the read, since the write before it precedes the other write.
    (0, 0, 5, Write),
    (0, 1, 5, Read),
    (1, 1, 5, Write),
    (0, 1, 5, Write),
    // The accesses of two emits.
    (0, 1, 1, Read),
    (0, 1, 1, Write),
    (1, 1, 1, Read),
    (1, 1, 1, Write),
    // Accesses that are not in the order of the serial elision.
    (1, 1, 8, Write),
    (0, 0, 8, Write),
    (0, 1, 8, Read),
];

fn accesses(alloc: Global) -> Result<NodeAccesses, NoMemory> {
    let mut accesses = ListOf::new(alloc);
    for (iteration, index, cell, kind) in &ACCESSES {
        let access = Access {
            cell: CellId(*cell),
            kind: *kind,
            value: 0,
        };
        let node = NodeId {
            iteration: *iteration,
            index: *index,
        };
        accesses.push(NodeAccess { node, access })?;
    }
    Ok(accesses)
}

// Two columns, each with a stage that waits for none.
const TWO_COLUMNS: [Stages; 2] = [&[(Z, 0), (C, 2)], &[(Z, 0), (C, 3)]];

// Races between the last instances of the two columns, each by its cell, and the iteration, the stage
// number and the kind of either access.
const RACES: [(u32, (u32, i64, AccessKind), (u32, i64, AccessKind)); 3] = [
    (1, (0, 2, Write), (1, 3, Read)),
    (5, (0, 2, Read), (1, 3, Write)),
    (8, (1, 3, Write), (0, 2, Read)),
];

fn last_of(iteration: u32) -> NodeId {
    NodeId {
        iteration,
        index: 1,
    }
}

fn report(cell: u32, earlier: (u32, i64, AccessKind), later: (u32, i64, AccessKind)) -> Report {
    Report {
        cell: CellId(cell),
        earlier: last_of(earlier.0),
        earlier_number: earlier.1,
        earlier_kind: earlier.2,
        later: last_of(later.0),
        later_number: later.1,
        later_kind: later.2,
    }
}

// Whether the reports are those of `RACES`.
fn are_races(reports: &[Report]) -> bool {
    for (k, (cell, earlier, later)) in RACES.iter().enumerate() {
        if reports.get(k) != Some(&report(*cell, *earlier, *later)) {
            return false;
        }
    }
    reports.len() == RACES.len()
}

// Whether the first races of these accesses are those of `RACES`.
fn has_races(alloc: Global, dag: &Dag, accesses: &NodeAccesses) -> bool
    requires { All (IsAccessOf dag.now) accesses.now }
{
    match dag.races(alloc, accesses) {
        Ok(found) => are_races(found.as_slice()),
        Err(NoMemory) => false,
    }
}

// The same by the dag of columns of which the accesses are.
fn columns_have_races(alloc: Global, columns: &Columns, accesses: &NodeAccesses) -> bool {
    let all = columns.as_slice();
    if !are_rising(all) || !are_accesses(all, accesses.as_slice()) {
        return false;
    }
    match Dag::of(alloc, columns) {
        Ok(dag) => {
            let found = has_races(alloc, &dag, accesses);
            drop(dag);
            found
        }
        Err(NoMemory) => false,
    }
}

fn two_columns_have_races(alloc: Global) -> Result<bool, NoMemory> {
    let columns = columns(alloc, &TWO_COLUMNS)?;
    let accesses = accesses(alloc)?;
    Ok(columns_have_races(alloc, &columns, &accesses))
}

#[test]
fn first_races_are_reported(rt: HostRuntime) {
    assert!(rt; two_columns_have_races(rt.alloc()) == Ok(true));
}
