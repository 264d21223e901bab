//! The rows of all iterations, and questions about them.

ghost use Rattle.std.specs.Prelude.{◌≡◌, ◌↔◌, ◌+◌, ◌-◌, ◌<◌, ◌≤◌, ◌≢◌, ◌^◌, zero, [], ◌∷◌, ◌++◌, length, IsTrue, Some, None, ℕ, Bool, List};
ghost use Rattle.std.specs.Prelude.{slice_index_or, IfSome, IfNone, IfOk, ◌≤ℤ◌, pos, replicate, vec_capacity};
ghost use Rattle.pipe_model.specs.Runs.State.{Frame};
ghost use Rattle.pipe_model.specs.Runs.Allowed.{LeftHasPassed, IsClosed, LastEndedFirstInstance};
ghost use Rattle.frame_rows.specs.RowsOfFrames.{AreRows, IsFree, RowGoesOn};
ghost use Rattle.frame_rows.specs.IterationRows.{row_counter, left_row_counter, counter_at, row_at, CounterPasses, IsFreeRow, empty_row};
ghost use Rattle.frame_rows.specs.AliveLists.{ListsAlive, is_alive_in};

use crate::row::Iteration;
use pipe_model::node::Kind;
use pipe_model::stage::Counter;
use pipe_model::status::Status;

/// Returns the stage counter of the left neighbour, if there is one.
pub fn left_counter<M>(rows: &[Iteration<M>], iteration: u32) -> Option<Counter>
    requires { iteration ≤ length rows.now }
    ensures { result ≡ left_row_counter rows.now iteration }
{
    if iteration == 0 {
        return None;
    }
    let left = &rows[iteration as usize - 1];
    Some(left.counter())
}

/// Returns whether the counter, if there is one, is past a stage.
pub fn is_past(counter: Option<Counter>, number: i64) -> bool
    ensures { IsTrue result ↔ CounterPasses counter number }
{
    match counter {
        None => true,
        Some(Counter::At(named)) => named > number,
        Some(Counter::Ended) => true,
    }
}

/// Returns whether instance 0 of the last iteration has ended, if there is one.
pub fn last_has_ended_first<M>(rows: &[Iteration<M>]) -> bool
    ensures { (going : Bool) (fs : List Frame) → AreRows going fs rows.now → IsTrue result ↔ LastEndedFirstInstance fs }
{
    if rows.is_empty() {
        return true;
    }
    let row = &rows[rows.len() - 1];
    row.has_ended_first()
}

// Returns whether an iteration with this status and left counter has named a stage that it may
// enter.
fn is_free(status: Status, left: Option<Counter>) -> bool
    ensures { IsTrue result ↔ IsFreeRow status left }
{
    match status {
        Status::Pending(Kind::Wait, number) => is_past(left, number),
        Status::Pending(Kind::Zero, _) => true,
        Status::Pending(Kind::Continue, _) => true,
        Status::Running => false,
        Status::Completed(_) => false,
    }
}

/// Returns whether the iteration has named a stage that it may enter.
pub fn may_enter<M>(rows: &[Iteration<M>], iteration: u32) -> bool
    ensures { (going : Bool) (fs : List Frame) → AreRows going fs rows.now → IsTrue result ↔ IsFree fs iteration }
{
    if iteration as usize >= rows.len() {
        return false;
    }
    let row = &rows[iteration as usize];
    is_free(row.status(), left_counter(rows, iteration))
}

/// Returns whether the iteration has begun and has not ended.
pub fn is_alive<M>(rows: &[Iteration<M>], iteration: u32) -> bool
    ensures { result ≡ is_alive_in rows.now iteration }
{
    if iteration as usize >= rows.len() {
        return false;
    }
    let row = &rows[iteration as usize];
    !row.has_ended()
}

// Returns whether the first of these iterations, if there is one, has not ended.
fn begins_alive<M>(rows: &[Iteration<M>], alive: &[u32]) -> bool {
    match alive.first() {
        None => true,
        Some(iteration) => is_alive(rows, *iteration),
    }
}

/// Drops iterations that have ended from the list of alive ones, if the first has ended or more than
/// `most` are listed. So not every call goes through the whole list.
pub fn drop_ended<M>(rows: &[Iteration<M>], alive: &mut Vec<u32>, most: usize)
    ensures list { ListsAlive rows.now alive.old.items → ListsAlive rows.now alive.new.items }
    ensures length { length alive.new.items ≤ length alive.old.items }
    ensures capacity { vec_capacity alive.new ≡ vec_capacity alive.old }
{
    if alive.len() > most || !begins_alive(rows, alive.as_slice()) {
        alive.retain(|iteration| is_alive(rows, *iteration));
    }
}

/// Returns the first iteration that was left ready, or that may enter the stage that it has named.
/// Looks only at the listed ones, in order.
pub fn first_to_go_on<M>(rows: &[Iteration<M>], alive: &[u32]) -> Option<u32>
    requires { ListsAlive rows.now alive.now }
    ensures some { (going : Bool) (fs : List Frame) → AreRows going fs rows.now → IfSome result
        (λ i. RowGoesOn fs rows.now i × ((j : ℕ) → j < i → RowGoesOn fs rows.now j → ⊥)) }
    ensures none { (going : Bool) (fs : List Frame) → AreRows going fs rows.now → IfNone result ((j : ℕ) → RowGoesOn fs rows.now j → ⊥) }
{
    for iteration in alive {
        let row = &rows[*iteration as usize];
        if goes_on(rows, row, *iteration) {
            return Some(*iteration);
        }
    }
    None
}

// Returns whether the iteration was left ready, or may enter the stage that it has named.
fn goes_on<M>(rows: &[Iteration<M>], row: &Iteration<M>, iteration: u32) -> bool
    requires { row_at rows.now iteration ≡ Some row.now }
    ensures { (going : Bool) (fs : List Frame) → AreRows going fs rows.now → IsTrue result ↔ RowGoesOn fs rows.now iteration }
{
    match row.status() {
        Status::Running => row.has_token(),
        _ => may_enter(rows, iteration),
    }
}
