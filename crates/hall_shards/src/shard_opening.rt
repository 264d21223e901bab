//! New shards.

ghost use Rattle.std.specs.Prelude.{◌≡◌, ◌++◌, ◌∷◌, [], ◌+◌, ◌*◌, ◌≤◌, ◌<◌, ℕ, IfOk, List, length};
ghost use Rattle.access_history.specs.KeptInstances.{nothing_kept};
ghost use Rattle.cell_store.specs.ShardState.{IsStateAfter};
ghost use Rattle.hall_shards.specs.ShardValues.{history_at};
ghost use Rattle.pipe_model.specs.Language.Programs.{store_of};
ghost use Rattle.pipe_model.specs.Language.SyntaxTree.{tree_of};
ghost use Rattle.pipe_model.specs.Pipelines.Store.{InitialStore};
ghost use Rattle.pipe_model.specs.declared.access.Access.{Access as PlainAccess};

use crate::shard::{SHARDS, Shard};
use access_history::history::History;
use cell_store::cells::Cells;
use cell_store::law::other_accesses_change_nothing;
use order_2d::two_passes::TwoPasses;
use pipe_check::checked::Checked;
use pipe_model::access::{Access, AccessKind, Accesses};
use pipe_model::memory::NoMemory;
use std::alloc::Global;

// Makes an access in the cells of a shard, if it writes one of them. The program has `count` cells;
// the access may be to none of them.
fn replay_access(cells: &mut Cells, count: u32, number: u32, access: Access)
    requires count { cells.old.shard.cells ≡ count }
    requires output { 1 < count }
    requires number { cells.old.shard.number ≡ number }
    requires shards { cells.old.shard.shards ≡ 16 }
    ensures state { (store : InitialStore) (before : List PlainAccess) → IsStateAfter store before cells.old
        → IsStateAfter store (before ++ access ∷ []) cells.new }
    ensures shard { cells.new.shard ≡ cells.old.shard }
{
    if count <= access.cell.0 {
        return;
    }
    if access.cell.0 % SHARDS != number {
        return other_accesses_change_nothing();
    }
    match access.kind {
        AccessKind::Write => cells.write(access.cell, access.value),
        AccessKind::Read => other_accesses_change_nothing(),
    }
}

// Makes the accesses, in order, in the cells of a shard.
fn replay_accesses(cells: &mut Cells, count: u32, number: u32, accesses: &[Access])
    requires count { cells.old.shard.cells ≡ count }
    requires output { 1 < count }
    requires number { cells.old.shard.number ≡ number }
    requires shards { cells.old.shard.shards ≡ 16 }
    ensures state { (store : InitialStore) → IsStateAfter store [] cells.old → IsStateAfter store accesses.now cells.new }
    ensures shard { cells.new.shard ≡ cells.old.shard }
{
    for access in accesses {
        replay_access(cells, count, number, *access);
    }
}

// The histories of a shard's cells before the first access, where the program has `count` cells.
fn empty_histories(alloc: Global, count: u32, number: u32) -> Result<Vec<History>, NoMemory>
    requires { number < 16 }
    ensures empty { IfOk result (λ histories. (slot : ℕ) → history_at histories.items slot ≡ nothing_kept) }
    ensures room { IfOk result (λ histories. count ≤ number + 16 * length histories.items) }
    ensures bounded { IfOk result (λ histories. number + 16 * length histories.items < count + 16) }
{
    let own = count.saturating_sub(number).div_ceil(SHARDS);
    Ok(vec![in alloc; History::new(); own as usize]?)
}

impl Shard {
    /// Returns shard `number` of the program's cells after these accesses, which may be to cells of
    /// all shards. It has an empty history for each of its cells and an empty log. Returns an error
    /// only if memory runs out.
    pub fn new(
        alloc: Global,
        checked: &Checked,
        number: u32,
        before: &Accesses,
        passes: TwoPasses,
    ) -> Result<Shard, NoMemory>
        requires there { number < 16 }
        ensures number { IfOk result (λ shard. shard.number ≡ number) }
        ensures part { IfOk result (λ shard. (shard.cells.shard.number ≡ number) × (shard.cells.shard.shards ≡ 16)) }
        ensures cells { IfOk result (λ shard. IsStateAfter (store_of (tree_of checked.now)) before.now shard.cells) }
        ensures histories { IfOk result (λ shard. (slot : ℕ) → history_at shard.histories slot ≡ nothing_kept) }
        ensures room { IfOk result (λ shard. shard.cells.shard.cells ≤ number + 16 * length shard.histories) }
        ensures bounded { IfOk result (λ shard. number + 16 * length shard.histories < shard.cells.shard.cells + 16) }
        ensures log { IfOk result (λ shard. shard.log ≡ []) }
        ensures last { IfOk result (λ shard. shard.last ≡ 0) }
        ensures lists { IfOk result (λ shard. shard.lists ≡ passes) }
    {
        let count = checked.cell_count();
        let mut cells = Cells::new(alloc, checked, number, SHARDS)?;
        replay_accesses(&mut cells, count, number, before.as_slice());
        Ok(Shard {
            number,
            cells,
            histories: empty_histories(alloc, count, number)?,
            log: Vec::new(alloc),
            last: 0,
            passes,
        })
    }
}
