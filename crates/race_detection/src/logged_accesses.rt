//! The accesses of a log, with the instances that make them.

ghost use Rattle.std.specs.Prelude.{◌≡◌, ◌<◌, ◌≤◌, ◌+◌, ◌-◌, ◌^◌, ℕ, List, OnOk, length, max, slice_index};
ghost use Rattle.order_2d.specs.LogStarts.{EntersBegun, counts_after};
ghost use Rattle.order_2d.specs.declared.starts.TheConstants.{MOST_STARTS};
ghost use Rattle.pipe_model.specs.Races.Columns.{at};
ghost use Rattle.race_detection.specs.FoundReports.{cell_bound};
ghost use Rattle.race_detection.specs.LogAccesses.{access_by, log_accesses};

use pipe_model::event::Event;
use pipe_model::memory::NoMemory;
use pipe_model::node::NodeId;

/// Returns the last instance of an iteration, by the number of instances of each iteration.
pub(crate) fn last_instance(iteration: u32, counts: &[u32]) -> NodeId
    ensures { result ≡ at iteration (slice_index counts.now iteration - 1) }
{
    let count = counts.get(iteration as usize).copied().unwrap_or(0);
    NodeId {
        iteration,
        index: count.saturating_sub(1),
    }
}

/// Counts the instance that an event starts, if it starts one; `counts` has the number of instances
/// of each iteration. Returns an error only if memory runs out.
pub(crate) fn count_start(event: &Event, counts: &mut Vec<u32>) -> Result<(), NoMemory>
    requires begun { EntersBegun (length counts.old.items) event.now }
    requires bounded { (k : ℕ) → slice_index counts.old.items k ≤ MOST_STARTS }
    ensures { OnOk result (counts.new.items ≡ counts_after counts.old.items event.now) }
{
    match event {
        Event::Begin(_) => counts.push(1)?,
        Event::Enter(iteration) => counts[*iteration as usize] += 1,
        Event::Access(_, _) | Event::Advance(_, _, _) | Event::Finish(_, _) | Event::Stop => {}
    }
    Ok(())
}

// The least number that is at least `bound` and greater than the number of the cell that an event
// accesses.
fn bound_after(bound: usize, event: &Event) -> usize
    requires small { bound ≤ 2 ^ 32 }
    ensures bound { (counts : List ℕ) → result ≡ max bound (cell_bound (access_by counts event.now)) }
    ensures small { result ≤ 2 ^ 32 }
{
    match event {
        Event::Access(_, access) => bound.max(access.cell.0 as usize + 1),
        Event::Begin(_)
        | Event::Advance(_, _, _)
        | Event::Enter(_)
        | Event::Finish(_, _)
        | Event::Stop => bound,
    }
}

/// Returns the least number that is greater than the number of each accessed cell.
pub(crate) fn cell_bound(events: &[Event]) -> usize
    ensures bound { result ≡ cell_bound (log_accesses events.now) }
    ensures small { result ≤ 2 ^ 32 }
{
    let mut bound = 0;
    for event in events {
        bound = bound_after(bound, event);
    }
    bound
}
