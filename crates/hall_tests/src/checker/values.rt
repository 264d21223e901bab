//! The values of cells: a read has the value that was written last.

use crate::checker::Verdict;
use pipe_model::access::{Access, AccessKind};
use pipe_model::event::Event;
use std::alloc::Global;

// The first cell that a program declares; those before it are the input and the output.
const FIRST_DECLARED: usize = 2;

// Makes an access, and returns whether it is to a declared cell and has its value.
fn make(values: &mut [i64], access: Access) -> bool {
    let cell = access.cell.0 as usize;
    if cell < FIRST_DECLARED || values.len() <= cell {
        return false;
    }
    match access.kind {
        AccessKind::Read => values[cell] == access.value,
        AccessKind::Write => {
            values[cell] = access.value;
            true
        }
    }
}

// Makes the accesses, up to the first that is to no declared cell, or is a read of another value than its
// cell has.
fn verdict(values: &mut [i64], events: &[Event]) -> Verdict {
    for (index, event) in events.iter().enumerate() {
        if let Event::Access(_, access) = *event
            && !make(values, access)
        {
            return Verdict::Value(index);
        }
    }
    Verdict::Finished
}

/// Returns what is wrong with the values of a log. The program has `cells` cells, which are 0 at first.
pub fn value_verdict(alloc: Global, cells: u32, events: &[Event]) -> Verdict {
    let Ok(mut values) = vec![in alloc; 0; cells as usize] else {
        return Verdict::OutOfMemory;
    };
    verdict(values.as_mut_slice(), events)
}
