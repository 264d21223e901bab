//! The races that the histories of a shard have found.

ghost use Rattle.std.specs.Prelude.{◌≡◌, IfOk};
ghost use Rattle.hall_shards.specs.FoundRaces as races;

use crate::shard::{SHARDS, Shard};
use access_history::history::Found;
use pipe_model::access::CellId;
use pipe_model::memory::NoMemory;
use std::alloc::Global;

impl Shard {
    /// Returns the report of each history that has one, with its cell, rising by cell. Returns an
    /// error only if memory runs out.
    pub fn found(&self) -> Result<Vec<(CellId, Found)>, NoMemory>
        ensures { IfOk result (λ found. found.items ≡ races.found_in self.now) }
    {
        let mut found = Vec::new(*self.histories.allocator());
        for (slot, history) in self.histories.iter().enumerate() {
            if let Some(race) = history.report {
                let cell = CellId(self.number + SHARDS * slot as u32);
                found.push((cell, race))?;
            }
        }
        Ok(found)
    }
}

/// Returns what the histories of the shards report, one shard after the other. Returns an error only if
/// memory runs out.
pub fn found_by(alloc: Global, shards: &[Shard]) -> Result<Vec<(CellId, Found)>, NoMemory>
    ensures { IfOk result (λ found. found.items ≡ races.found_by shards.now) }
{
    let mut found = Vec::new(alloc);
    for shard in shards {
        let races = shard.found()?;
        found.extend_from_slice(races.as_slice())?;
    }
    Ok(found)
}
