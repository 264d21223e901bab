//! The instances that the events of a log start.

ghost use Rattle.std.specs.Prelude.{◌≡◌, ◌<◌, ◌≤◌, ◌+◌, ◌++◌, ℕ, IfOk, OnOk, length, slice_index};
ghost use Rattle.order_2d.specs.LogStarts.{EntersBegun, IsControlLog, counts_after, log_starts, started_after};

use pipe_model::event::Event;
use pipe_model::list::ListOf;
use pipe_model::memory::NoMemory;
use pipe_model::node::{NodeId, NodeIds};
use std::alloc::Global;

/// The most instances that a log may start: with a list for each order, their elements have 32-bit
/// numbers.
pub const MOST_STARTS: usize = 262_145;

// Appends the instance that an event starts, if it starts one; `counts` has the number of instances
// of each iteration.
fn push_start(event: &Event, counts: &mut Vec<u32>, starts: &mut NodeIds) -> Result<(), NoMemory>
    requires begun { EntersBegun (length counts.old.items) event.now }
    requires bounded { length starts.old ≤ MOST_STARTS }
    requires counted { (k : ℕ) → slice_index counts.old.items k ≤ length starts.old }
    ensures starts { OnOk result (starts.new ≡ starts.old ++ started_after counts.old.items event.now) }
    ensures counts { OnOk result (counts.new.items ≡ counts_after counts.old.items event.now) }
{
    match event {
        Event::Begin(iteration) => {
            counts.push(1)?;
            starts.push(NodeId {
                iteration: *iteration,
                index: 0,
            })?;
        }
        Event::Enter(iteration) => {
            let index = counts[*iteration as usize];
            counts[*iteration as usize] = index + 1;
            starts.push(NodeId {
                iteration: *iteration,
                index,
            })?;
        }
        Event::Access(_, _) | Event::Advance(_, _, _) | Event::Finish(_, _) | Event::Stop => {}
    }
    Ok(())
}

/// Returns the instances that the events start, in order. Returns an error only if memory runs out.
pub(crate) fn starts_of_log(alloc: Global, events: &[Event]) -> Result<NodeIds, NoMemory>
    requires control { IsControlLog events.now }
    requires bounded { length (log_starts events.now) ≤ MOST_STARTS }
    ensures { IfOk result (λ starts. starts ≡ log_starts events.now) }
{
    let mut counts = Vec::new(alloc);
    let mut starts = ListOf::new(alloc);
    for event in events {
        push_start(event, &mut counts, &mut starts)?;
    }
    Ok(starts)
}
