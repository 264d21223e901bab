//! Runs of a dag without accesses, played event by event.

ghost use Rattle.std.specs.Prelude.{◌≡◌, ◌≢◌, ◌<◌, ◌≤◌, ◌<ℤ◌, ◌-◌, ◌++◌, ◌∷◌, [], IfOk, OnOk, length, slice_index_or, slice_set};
ghost use Rattle.std.specs.Bool.{OnTrue};
ghost use Rattle.order_2d.specs.LogStarts.{IsOwnLog};
ghost use Rattle.order_tests.specs.Plays.{IsPlayed};
ghost use Rattle.pipe_model.specs.declared.column.ColumnEnd.TheVariants.{Closed};
ghost use Rattle.pipe_model.specs.declared.node.Kind.TheVariants.{Wait, Zero};
ghost use Rattle.pipe_model.specs.declared.status.Status.TheVariants.{Pending, Running};
ghost use Rattle.pipe_model.specs.Races.Columns.{node_at, nodes_at, node_columns};
ghost use Rattle.pipe_model.specs.Runs.Allowed.{ContinuesLoop, HasPassed, LeftHasPassed, MayBegin};
ghost use Rattle.pipe_model.specs.Runs.ControlParts.{control_after};

use pipe_model::column::{Column, ColumnEnd};
use pipe_model::event::{Event, Events, RunLog};
use pipe_model::list::ListOf;
use pipe_model::memory::NoMemory;
use pipe_model::node::{Kind, Node};
use pipe_model::status::Status;
use std::alloc::Global;

const MOST_ITERATIONS: usize = 16;

const MOST_EVENTS: usize = 200;

// The first instance of each iteration.
const FIRST: Node = Node {
    number: 0,
    kind: Kind::Zero,
};

/// The stages of an iteration after stage 0, and how it ends.
pub(crate) type Stages = (&'static [(Kind, i64)], ColumnEnd);

/// The order in which iterations take turns.
#[derive(Clone, Copy)]
pub(crate) enum Turns {
    /// The leftmost iteration goes on, as in the serial elision.
    Leftmost,
    /// The rightmost iteration goes on that may.
    Rightmost,
    /// Another iteration goes on with each event.
    InTurn,
}

#[derive(Drop)]
struct Play {
    columns: Vec<Column>,
    statuses: Vec<Status>,
    events: Events,
}

// Whether the loop goes on after an iteration.
fn continues(status: Status, nodes: &[Node]) -> bool
    ensures { OnTrue result (ContinuesLoop status nodes.now) }
{
    match status {
        Status::Pending(_, _) | Status::Completed(ColumnEnd::End) => true,
        Status::Running | Status::Completed(_) => nodes.len() > 1,
    }
}

fn has_passed(status: Status, nodes: &[Node], number: i64) -> bool
    ensures { OnTrue result (HasPassed status nodes.now number) }
{
    match status {
        Status::Running => !nodes.is_empty() && number < nodes[nodes.len() - 1].number,
        Status::Pending(_, next) => number < next,
        Status::Completed(_) => true,
    }
}

// Whether the next iteration may begin.
fn may_begin(play: &Play) -> bool
    requires { IsPlayed MOST_ITERATIONS play.now.events play.now.columns.items play.now.statuses.items }
    ensures { OnTrue result (MayBegin MOST_ITERATIONS (control_after play.now.events) (length play.now.columns.items)) }
{
    let i = play.columns.len();
    if i == 0 {
        return true;
    }
    i < MOST_ITERATIONS && continues(play.statuses[i - 1], play.columns[i - 1].nodes.as_slice())
}

// Begins the next iteration, if it may begin.
fn begin(alloc: Global, play: &mut Play) -> Result<bool, NoMemory>
    requires { IsPlayed MOST_ITERATIONS play.old.events play.old.columns.items play.old.statuses.items }
    ensures { OnOk result (IsPlayed MOST_ITERATIONS play.new.events play.new.columns.items play.new.statuses.items) }
{
    let i = play.columns.len();
    if i >= MOST_ITERATIONS || !may_begin(play) {
        return Ok(false);
    }
    let mut nodes = ListOf::new(alloc);
    nodes.push(FIRST)?;
    play.columns.push(Column { nodes, end: None })?;
    play.statuses.push(Status::Running)?;
    play.events.push(Event::Begin(i as u32))?;
    Ok(true)
}

// Whether an instance that is the last of these may name this stage.
fn may_advance(nodes: &[Node], kind: Kind, number: i64) -> bool
    ensures kind { OnTrue result (kind ≢ Zero) }
    ensures above { OnTrue result ((node_at nodes.now (length nodes.now - 1)).number <ℤ number) }
{
    kind != Kind::Zero && !nodes.is_empty() && nodes[nodes.len() - 1].number < number
}

// Names the next stage of an iteration, if its number is above the current one.
fn advance(play: &mut Play, i: usize, kind: Kind, number: i64) -> Result<bool, NoMemory>
    requires played { IsPlayed MOST_ITERATIONS play.old.events play.old.columns.items play.old.statuses.items }
    requires begun { i < length play.old.columns.items }
    requires bounded { i < MOST_ITERATIONS }
    requires runs { slice_index_or play.old.statuses.items i Running ≡ Running }
    ensures { OnOk result (IsPlayed MOST_ITERATIONS play.new.events play.new.columns.items play.new.statuses.items) }
{
    if !may_advance(play.columns[i].nodes.as_slice(), kind, number) {
        return Ok(false);
    }
    play.statuses[i] = Status::Pending(kind, number);
    play.events.push(Event::Advance(i as u32, kind, number))?;
    Ok(true)
}

// Whether an iteration may enter the stage that it has named.
fn may_enter(play: &Play, i: usize, kind: Kind, number: i64) -> bool
    requires played { IsPlayed MOST_ITERATIONS play.now.events play.now.columns.items play.now.statuses.items }
    requires begun { i < length play.now.columns.items }
    ensures { OnTrue result (kind ≡ Wait → LeftHasPassed (control_after play.now.events).frames i number) }
{
    if kind != Kind::Wait || i == 0 {
        return true;
    }
    let left = play.columns[i - 1].nodes.as_slice();
    has_passed(play.statuses[i - 1], left, number)
}

// Appends an instance to a column.
fn push_node(columns: &mut Vec<Column>, i: usize, node: Node) -> Result<(), NoMemory>
    requires { i < length columns.old.items }
    ensures nodes { OnOk result (node_columns columns.new.items ≡ slice_set (node_columns columns.old.items) i
        (nodes_at (node_columns columns.old.items) i ++ node ∷ [])) }
    ensures len { length columns.new.items ≡ length columns.old.items }
{
    let column = &mut columns[i];
    column.nodes.push(node)?;
    Ok(())
}

// Enters the stage that an iteration has named, if it may.
fn enter(play: &mut Play, i: usize, kind: Kind, number: i64) -> Result<bool, NoMemory>
    requires played { IsPlayed MOST_ITERATIONS play.old.events play.old.columns.items play.old.statuses.items }
    requires begun { i < length play.old.columns.items }
    requires bounded { i < MOST_ITERATIONS }
    requires named { slice_index_or play.old.statuses.items i Running ≡ Pending kind number }
    ensures { OnOk result (IsPlayed MOST_ITERATIONS play.new.events play.new.columns.items play.new.statuses.items) }
{
    if !may_enter(play, i, kind, number) {
        return Ok(false);
    }
    push_node(&mut play.columns, i, Node { number, kind })?;
    play.statuses[i] = Status::Running;
    play.events.push(Event::Enter(i as u32))?;
    Ok(true)
}

// Whether an iteration with these instances may have this end.
fn may_finish(nodes: &[Node], end: ColumnEnd) -> bool
    ensures { OnTrue result (end ≡ Closed → length nodes.now ≡ 1) }
{
    end != ColumnEnd::Closed || nodes.len() == 1
}

// Sets the end of a column.
fn set_end(columns: &mut Vec<Column>, i: usize, end: ColumnEnd)
    requires { i < length columns.old.items }
    ensures nodes { node_columns columns.new.items ≡ node_columns columns.old.items }
    ensures len { length columns.new.items ≡ length columns.old.items }
{
    columns[i].end = Some(end);
}

// Ends an iteration, if it may have this end.
fn finish(play: &mut Play, i: usize, end: ColumnEnd) -> Result<bool, NoMemory>
    requires played { IsPlayed MOST_ITERATIONS play.old.events play.old.columns.items play.old.statuses.items }
    requires begun { i < length play.old.columns.items }
    requires bounded { i < MOST_ITERATIONS }
    requires runs { slice_index_or play.old.statuses.items i Running ≡ Running }
    ensures { OnOk result (IsPlayed MOST_ITERATIONS play.new.events play.new.columns.items play.new.statuses.items) }
{
    if !may_finish(play.columns[i].nodes.as_slice(), end) {
        return Ok(false);
    }
    set_end(&mut play.columns, i, end);
    play.statuses[i] = Status::Completed(end);
    play.events.push(Event::Finish(i as u32, end))?;
    Ok(true)
}

// Makes the next event of an iteration, if it may happen now.
fn go_on(alloc: Global, play: &mut Play, i: usize, dag: &[Stages]) -> Result<bool, NoMemory>
    requires played { IsPlayed MOST_ITERATIONS play.old.events play.old.columns.items play.old.statuses.items }
    requires inside { i < length dag.now }
    ensures { OnOk result (IsPlayed MOST_ITERATIONS play.new.events play.new.columns.items play.new.statuses.items) }
{
    let begun = play.columns.len();
    if i == begun {
        return begin(alloc, play);
    }
    if i > begun || i >= MOST_ITERATIONS {
        return Ok(false);
    }
    match play.statuses[i] {
        Status::Running => {
            let (stages, end) = dag[i];
            match stages.get(play.columns[i].nodes.len().saturating_sub(1)) {
                Some((kind, number)) => advance(play, i, *kind, *number),
                None => finish(play, i, end),
            }
        }
        Status::Pending(kind, number) => enter(play, i, kind, number),
        Status::Completed(_) => Ok(false),
    }
}

// The iteration that takes turn `k` at event `m`.
fn turn(turns: Turns, m: usize, k: usize, count: usize) -> usize
    requires turn { k < count }
    requires bounded { m < MOST_EVENTS }
    requires small { count ≤ MOST_ITERATIONS }
    ensures { result < count }
{
    match turns {
        Turns::Leftmost => k,
        Turns::Rightmost => count - 1 - k,
        Turns::InTurn => (m + k) % count,
    }
}

// Makes event `m` of the first iteration whose next event may happen, if there is one.
fn make_event(
    alloc: Global,
    play: &mut Play,
    m: usize,
    dag: &[Stages],
    turns: Turns,
) -> Result<bool, NoMemory>
    requires played { IsPlayed MOST_ITERATIONS play.old.events play.old.columns.items play.old.statuses.items }
    requires bounded { m < MOST_EVENTS }
    requires small { length dag.now ≤ MOST_ITERATIONS }
    ensures { OnOk result (IsPlayed MOST_ITERATIONS play.new.events play.new.columns.items play.new.statuses.items) }
{
    for k in 0..dag.len() {
        if go_on(alloc, play, turn(turns, m, k, dag.len()), dag)? {
            return Ok(true);
        }
    }
    Ok(false)
}

/// Plays the events of a dag until no iteration may go on. Returns an error only if memory runs out.
pub(crate) fn played(alloc: Global, dag: &[Stages], turns: Turns) -> Result<RunLog, NoMemory>
    requires { length dag.now ≤ MOST_ITERATIONS }
    ensures own { IfOk result IsOwnLog }
{
    let mut play = Play {
        columns: Vec::new(alloc),
        statuses: Vec::new(alloc),
        events: ListOf::new(alloc),
    };
    for m in 0..MOST_EVENTS {
        if !make_event(alloc, &mut play, m, dag, turns)? {
            break;
        }
    }
    Ok(RunLog {
        columns: ListOf::from_vec(play.columns),
        events: play.events,
    })
}
