//! The columns that the events of a log make.

ghost use Rattle.std.specs.Prelude.{◌≡◌, ◌++◌, ◌∷◌, [], IfOk, OnOk, map};
ghost use Rattle.pipe_model.specs.Pipelines.Behaviour.{node_of};
ghost use Rattle.pipe_model.specs.Runs.ControlParts.{control_after, outlines_of};
ghost use Rattle.pipe_model.specs.Runs.RunLogs.{column_of_frame};
ghost use Rattle.pipe_model.specs.Runs.State.{enter_pending, end_of_status, fresh_frame, update_frame};
ghost use Rattle.run_record.specs.OwnColumns.{frame_of, frames_of, made_columns, next_outlines};
ghost use Rattle.run_record.specs.TrappedEvents.{ends_trapped};
ghost use Rattle.std.specs.List.{list_any};
ghost use Rattle.pipe_model.specs.declared.ticket.BookEntry.{BookEntry as Entry};

use pipe_model::column::{Column, ColumnEnd, Columns};
use pipe_model::event::Event;
use pipe_model::list::ListOf;
use pipe_model::memory::NoMemory;
use pipe_model::node::{Kind, Node, Nodes};
use pipe_model::status::Status;
use pipe_model::ticket::BookEntry;
use std::alloc::Global;

// An iteration after some events.
#[derive(Drop)]
pub(crate) struct Iteration {
    nodes: Nodes,
    status: Status,
}

// An iteration that has just begun.
fn begun(alloc: Global) -> Result<Iteration, NoMemory>
    ensures { IfOk result (λ it. frame_of it ≡ fresh_frame) }
{
    let mut nodes = Nodes::new(alloc);
    nodes.push(Node {
        number: 0,
        kind: Kind::Zero,
    })?;
    Ok(Iteration {
        nodes,
        status: Status::Running,
    })
}

// Sets the status of an iteration, if it has begun.
fn set_status(iterations: &mut Vec<Iteration>, iteration: u32, status: Status)
    ensures { frames_of iterations.new.items ≡ update_frame (frames_of iterations.old.items) iteration (λ f. record f { status = status }) }
{
    let index = iteration as usize;
    if index < iterations.len() {
        let changed = &mut iterations[index];
        changed.status = status;
    }
}

// Enters the stage that an iteration has named, if it has named one.
fn enter(iterations: &mut Vec<Iteration>, iteration: u32) -> Result<(), NoMemory>
    ensures { OnOk result (frames_of iterations.new.items ≡ update_frame (frames_of iterations.old.items) iteration
        (λ f. enter_pending f.status f)) }
{
    let index = iteration as usize;
    if index < iterations.len() {
        let entered = &mut iterations[index];
        match entered.status {
            Status::Pending(kind, number) => {
                entered.nodes.push(Node { number, kind })?;
                entered.status = Status::Running;
            }
            Status::Running => {}
            Status::Completed(_) => {}
        }
    }
    Ok(())
}

// Applies an event to the iterations that have begun.
fn apply(alloc: Global, iterations: &mut Vec<Iteration>, event: Event) -> Result<(), NoMemory>
    ensures { OnOk result (frames_of iterations.new.items ≡ next_outlines (frames_of iterations.old.items) event) }
{
    match event {
        Event::Begin(_) => iterations.push(begun(alloc)?)?,
        Event::Advance(iteration, kind, number) => {
            set_status(iterations, iteration, Status::Pending(kind, number));
        }
        Event::Enter(iteration) => enter(iterations, iteration)?,
        Event::Finish(iteration, end) => {
            set_status(iterations, iteration, Status::Completed(end));
        }
        Event::Access(_, _) => {}
        Event::Stop => {}
    }
    Ok(())
}

// The iterations after all events.
fn iterations_of(alloc: Global, events: &[Event]) -> Result<Vec<Iteration>, NoMemory>
    ensures { IfOk result (λ its. frames_of its.items ≡ outlines_of (control_after events.now).frames) }
{
    let mut iterations = Vec::new(alloc);
    for event in events {
        apply(alloc, &mut iterations, *event)?;
    }
    Ok(iterations)
}

// The iterations after all events of a book.
fn iterations_in(alloc: Global, book: &[BookEntry]) -> Result<Vec<Iteration>, NoMemory>
    ensures { IfOk result (λ its. frames_of its.items ≡ outlines_of (control_after (map (λ b. b.event) book.now)).frames) }
{
    let mut iterations = Vec::new(alloc);
    for entry in book {
        apply(alloc, &mut iterations, entry.event)?;
    }
    Ok(iterations)
}

fn end_of(status: Status) -> Option<ColumnEnd>
    ensures { result ≡ end_of_status status }
{
    match status {
        Status::Completed(end) => Some(end),
        Status::Running | Status::Pending(_, _) => None,
    }
}

// The columns of iterations, with their ends.
fn into_columns(alloc: Global, iterations: Vec<Iteration>) -> Result<Columns, NoMemory>
    ensures { IfOk result (λ columns. columns ≡ map (λ it. column_of_frame (frame_of it)) iterations.items) }
{
    let mut columns = Vec::with_capacity(alloc, iterations.len())?;
    for iteration in iterations {
        columns.push(Column {
            nodes: iteration.nodes,
            end: end_of(iteration.status),
        })?;
    }
    Ok(ListOf::from_vec(columns))
}

// Returns whether an event ends an iteration with a trap.
fn ends_trapped(event: Event) -> bool
    ensures { result ≡ ends_trapped event }
{
    match event {
        Event::Finish(_, ColumnEnd::Trapped(_)) => true,
        Event::Finish(_, ColumnEnd::End | ColumnEnd::Closed) => false,
        Event::Begin(_) | Event::Access(_, _) | Event::Advance(_, _, _) => false,
        Event::Enter(_) | Event::Stop => false,
    }
}

/// Returns whether an event of a book ends an iteration with a trap. If none does, nobody needs columns
/// to find the trap of the least iteration.
pub fn has_trap(book: &[BookEntry]) -> bool
    ensures { result ≡ list_any (λ (b : Entry). ends_trapped b.event) book.now }
{
    book.iter().any(|entry| ends_trapped(entry.event))
}

/// Returns the columns that the events make, with the ends of the iterations that have ended. Returns
/// an error only if memory runs out.
pub fn columns_of(alloc: Global, events: &[Event]) -> Result<Columns, NoMemory>
    ensures { IfOk result (λ columns. columns ≡ made_columns events.now) }
{
    let iterations = iterations_of(alloc, events)?;
    into_columns(alloc, iterations)
}

/// Returns the columns that the events of a book make, which are those of every merge of the book with
/// accesses. Returns an error only if memory runs out.
pub fn columns_in(alloc: Global, book: &[BookEntry]) -> Result<Columns, NoMemory>
    ensures { IfOk result (λ columns. columns ≡ made_columns (map (λ b. b.event) book.now)) }
{
    let iterations = iterations_in(alloc, book)?;
    into_columns(alloc, iterations)
}
