//! Whether accesses are free of races, found in one pass over them.

ghost use Rattle.std.specs.Prelude.{◌≡◌, ◌≤◌, ℕ, List, All, IfOk, IfSome, IsTrue, OnOk, length, slice_index_or};
ghost use Rattle.pipe_model.specs.Races.CellRaces.{NotedAccess, accesses_to, noted_access};
ghost use Rattle.dag_build.specs.AccessFronts.{AreFronts};
ghost use Rattle.dag_build.specs.ClearAccesses.{IsClearWith, no_fronts};
ghost use Rattle.dag_build.specs.NodeColumns.{IsAccessOf};
ghost use Rattle.dag_build.specs.RacingAccesses.{CellHasNoRace};

use crate::dag::Dag;
use crate::fronts::Fronts;
use pipe_model::access::NodeAccess;
use pipe_model::memory::NoMemory;
use std::alloc::Global;

// The fronts of a cell without accesses.
const NO_FRONTS: Fronts = Fronts {
    column: 0,
    writes: 0,
    accesses: 0,
};

// Makes sure that there are fronts for `count` cells. Those of new ones are the fronts of a cell without
// accesses. Returns an error only if memory runs out.
fn extend(fronts: &mut Vec<Fronts>, count: usize) -> Result<(), NoMemory>
    ensures count { OnOk result (count ≤ length fronts.new.items) }
    ensures fronts { OnOk result ((c : ℕ) → slice_index_or fronts.new.items c no_fronts ≡ slice_index_or fronts.old.items c no_fronts) }
{
    for _ in fronts.len()..count {
        fronts.push(NO_FRONTS)?;
    }
    Ok(())
}

impl Dag {
    // Returns the fronts of the accesses to a cell with another one. Returns `None` if they do not say
    // that it races with none of them.
    fn fronts_with(&self, fronts: Fronts, access: &NodeAccess) -> Option<Fronts>
        requires { IsAccessOf self.now access.now }
        ensures { IfSome result (λ after. (noted : List NotedAccess) → AreFronts self.now noted (length noted) fronts
            → IsClearWith self.now noted (noted_access access.now.node access.now.access.kind) after) }
    {
        let column = access.node.iteration as usize;
        let index = access.node.index as usize;
        if column < fronts.column {
            return None;
        }
        let moved = fronts.moved(self, column);
        if index < moved.front_for(access.access.kind) {
            return None;
        }
        Some(moved.joined(access.access.kind, index))
    }

    /// Returns whether the fronts of the accesses to each cell say that no two of them race. Takes a few
    /// look-ups for each access, and memory for each cell up to the greatest that is accessed. Returns an
    /// error only if memory runs out.
    pub(crate) fn are_clear(&self, alloc: Global, accesses: &[NodeAccess]) -> Result<bool, NoMemory>
        requires { All (IsAccessOf self.now) accesses.now }
        ensures { IfOk result (λ clear. IsTrue clear → (c : ℕ) → CellHasNoRace self.now (accesses_to c accesses.now)) }
    {
        let mut fronts = Vec::new(alloc);
        for access in accesses {
            let cell = access.access.cell.0 as usize;
            extend(&mut fronts, cell + 1)?;
            let Some(after) = self.fronts_with(fronts[cell], access) else {
                return Ok(false);
            };
            fronts[cell] = after;
        }
        Ok(true)
    }
}
