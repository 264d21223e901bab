//! The cells after a run, from its shards.

ghost use Rattle.std.specs.Prelude.{◌≡◌, ◌<◌, ◌++◌, List, length};
ghost use Rattle.cell_store.specs.ShardState.{IsStateAfter};
ghost use Rattle.pipe_engine.specs.FinalCells.{ArePartsOf, HaveCellsAfter};
ghost use Rattle.pipe_model.specs.declared.access.Access.{Access as CellAccess};
ghost use Rattle.pipe_model.specs.Pipelines.Store.{InitialStore};

use cell_store::cells::Cells;
use hall_shards::shard::{SHARDS, Shard};
use pipe_model::access::CellId;

/// Sets each of the `count` cells to what its shard has, and the emitted numbers too. `cells` has all of
/// them, as one shard. If each shard has its cells as they are after the accesses of `cells` and those of a
/// run, so has `cells` then.
pub(crate) fn collect(cells: &mut Cells, count: u32, shards: &[Shard])
    requires count { cells.old.shard.cells ≡ count }
    requires output { 1 < count }
    requires whole { (cells.old.shard.number ≡ 0) × (cells.old.shard.shards ≡ 1) }
    requires all { length shards.now ≡ 16 }
    requires parts { ArePartsOf cells.old.shard shards.now }
    ensures state { (store : InitialStore) (before run : List CellAccess) → IsStateAfter store before cells.old
        → HaveCellsAfter store (before ++ run) shards.now → IsStateAfter store (before ++ run) cells.new }
    ensures shard { cells.new.shard ≡ cells.old.shard }
{
    for cell in 0..count {
        let shard = &shards[(cell % SHARDS) as usize];
        cells.copy_from(shard.cells(), CellId(cell));
    }
}
