//! The values of cells before the first access.

ghost use Rattle.std.specs.Prelude.{◌≡◌, ◌<◌, ◌≤◌, ◌+◌, ◌*◌, ◌∷◌, IfOk, All, length, pos, slice_index_or, ℕ};
ghost use Rattle.pipe_model.specs.Language.CheckingRules.{cell_total};
ghost use Rattle.pipe_model.specs.Language.Programs.{declared_size, declared_values};
ghost use Rattle.pipe_model.specs.Language.SpellablePrograms.{HasNoNegativeSize};
ghost use Rattle.pipe_model.specs.declared.bounds.TheConstants.{MOST_CELLS};
ghost use Rattle.pipe_model.specs.declared.tree.Declaration.{Declaration as Declared};

use pipe_model::memory::NoMemory;
use pipe_model::tree::Declaration;
use std::alloc::Global;

// The number of cells of a declaration of this size.
fn declared_cells(size: Option<i64>) -> usize
    requires sign { HasNoNegativeSize size }
    requires bounded { declared_size size ≤ MOST_CELLS }
    ensures { result ≡ declared_size size }
{
    size.unwrap_or(1) as usize
}

/// Returns the initial values of all cells: 0 for the input's cursor and for the output, then the
/// declared values. Returns an error only if memory runs out.
pub(crate) fn initial_values(alloc: Global, cells: &[Declaration]) -> Result<Vec<i64>, NoMemory>
    requires signs { All (λ (d : Declared). HasNoNegativeSize d.size) cells.now }
    requires bounded { cell_total cells.now ≤ MOST_CELLS }
    ensures values { IfOk result (λ values. values.items ≡ pos 0 ∷ (pos 0 ∷ declared_values cells.now)) }
    ensures len { IfOk result (λ values. length values.items ≡ cell_total cells.now + 2) }
{
    let mut values = vec![in alloc; 0, 0]?;
    for declaration in cells {
        let len = values.len() + declared_cells(declaration.size);
        values.resize(len, declaration.value)?;
    }
    Ok(values)
}

/// Returns the values of the cells of a shard, from the values of all cells. Returns an error only if
/// memory runs out.
pub(crate) fn values_of_shard(
    alloc: Global,
    all: &[i64],
    shard: u32,
    shards: u32,
) -> Result<Vec<i64>, NoMemory>
    requires there { shard < shards }
    ensures complete { IfOk result (λ values. length all.now ≤ shard + shards * length values.items) }
    ensures values { IfOk result (λ values. (slot : ℕ) → slot < length values.items
        → slice_index_or values.items slot (pos 0) ≡ slice_index_or all.now (shard + shards * slot) (pos 0)) }
{
    let mut values = Vec::with_capacity(alloc, all.len() / shards as usize + 1)?;
    let mut cell = shard as usize;
    while cell < all.len() {
        values.push(all[cell])?;
        cell += shards as usize;
    }
    Ok(values)
}
