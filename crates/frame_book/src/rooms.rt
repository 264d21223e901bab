//! What a book allocates.

ghost use Rattle.std.specs.Prelude.{◌≡◌, ◌+◌, ◌*◌, ◌≤◌, ◌≤ℤ◌, [], ◌∷◌, IfOk, pos, replicate, vec_capacity};
ghost use Rattle.order_2d.specs.declared.starts.TheConstants.{MOST_STARTS};
ghost use Rattle.pipe_model.specs.Language.Programs.{natural};

use crate::ledger::Tickets;
use frame_rows::places::Places;
use frame_rows::row::Iteration;
use pipe_model::tree::Limits;
use std::alloc::{AllocError, Global};

/// The lists and rows of a new book.
#[derive(Drop)]
pub struct Rooms<M> {
    /// Room for the rows of the iterations that have begun.
    pub rows: Vec<Iteration<M>>,
    /// Room for the places of all instances.
    pub places: Places,
    /// Room for the numbers of those that are alive.
    pub alive: Vec<u32>,
    /// A log with room for all events.
    pub ledger: Tickets,
}

/// Returns what the book of a program with these limits needs. Returns an error only if memory runs
/// out.
pub fn rooms_for<M: Drop>(alloc: Global, limits: Limits) -> Result<Rooms<M>, AllocError>
    requires iterations { pos 0 ≤ℤ limits.iterations }
    requires stages { pos 0 ≤ℤ limits.stages }
    requires bounded { natural limits.iterations * natural limits.stages + 1 ≤ MOST_STARTS }
    ensures rows { IfOk result (λ r. (r.rows.items ≡ []) × (vec_capacity r.rows ≡ natural limits.iterations + 1)) }
    ensures places { IfOk result (λ r. r.places ≡ record {
      numbers = [];
      marks = [];
      stages = natural limits.stages;
      spare = 1 ∷ replicate (natural limits.iterations) (natural limits.stages);
    }) }
    ensures alive { IfOk result (λ r. (r.alive.items ≡ []) × (vec_capacity r.alive ≡ natural limits.iterations + 1)) }
    ensures ledger { IfOk result (λ r. r.ledger ≡ record {
      log = [];
      room = 2 * (natural limits.iterations * natural limits.stages + 1) + 1;
    }) }
{
    let stages = limits.stages as usize;
    let iterations = limits.iterations as usize;
    let instances = iterations * stages + 1;
    let ledger = Tickets::new(alloc, 2 * instances + 1)?;
    let alive = Vec::with_capacity(alloc, iterations + 1)?;
    let rows = Vec::with_capacity(alloc, iterations + 1)?;
    let places = Places::new(alloc, iterations, stages)?;
    Ok(Rooms {
        rows,
        places,
        alive,
        ledger,
    })
}
