//! The cells of a shard.

ghost use Rattle.std.specs.Prelude.{◌≡◌, ◌<◌, ◌≤◌, ◌+◌, ◌++◌, ◌∷◌, [], IfOk, List, length, take, vec_capacity};
ghost use Rattle.cell_store.specs.ShardState.{HasNoOutput, HasOutput, IsOfShard, IsStateAfter, IsWrittenAs};
ghost use Rattle.pipe_model.specs.Language.CheckingRules.{cell_total, fault_of};
ghost use Rattle.pipe_model.specs.Language.Programs.{natural, store_of};
ghost use Rattle.pipe_model.specs.Language.SpellablePrograms.{IsSpellable};
ghost use Rattle.pipe_model.specs.Language.SyntaxTree.{tree_of};
ghost use Rattle.pipe_model.specs.Pipelines.Behaviour.{read_access, write_access};
ghost use Rattle.pipe_model.specs.Pipelines.Store.{InitialStore, output_of, value_after};
ghost use Rattle.pipe_model.specs.declared.access.Access.{Access as Accessed};

use crate::initial_values::{initial_values, values_of_shard};
use crate::shard::{shard_of, slot_of};
use pipe_check::checked::Checked;
use pipe_model::access::CellId;
use pipe_model::list::{ListOf, Numbers};
use pipe_model::memory::NoMemory;
use pipe_model::tree::Program;
use std::alloc::Global;
use std::marker::Model;

// Writes to this cell are the output.
const OUTPUT: CellId = CellId(1);

/// The values of the cells of a shard, and the emitted numbers if the output is one of them.
/// Contracts relate this state to the accesses that were made.
#[derive(Drop)]
pub struct Cells {
    cells: u32,
    shard: u32,
    shards: u32,
    output_limit: u32,
    // The value of each cell of the shard, at the cell's number divided by `shards`.
    values: Vec<i64>,
    output: Vec<i64>,
}

impl Model for Cells {
    ghost use Rattle.cell_store.specs.ShardState.{ShardState};

    ghost Value = { ShardState };

    ghost use Rattle.cell_store.specs.Reserves.{IsReserved};

    ghost view = { λ c. record {
      shard = record { number = c.shard; shards = c.shards; cells = c.cells; output_limit = c.output_limit };
      values = c.values.items;
      output = c.output.items;
    } };

    ghost invariant = { IsReserved };
}

// The most numbers that the program emits.
fn output_limit(program: &Program) -> u32
    requires spellable { IsSpellable (tree_of program.now) }
    requires obeys { fault_of (tree_of program.now) ≡ None }
    ensures { result ≡ natural program.now.limits.emits }
{
    program.limits.emits as u32
}

// Appends a number, unless `limit` numbers are there.
fn push_within(limit: u32, value: i64, output: &mut Vec<i64>)
    requires within { length output.old.items ≤ limit }
    requires reserved { limit ≤ vec_capacity output.old }
    ensures output { output.new.items ≡ take limit (output.old.items ++ value ∷ []) }
    ensures capacity { vec_capacity output.new ≡ vec_capacity output.old }
{
    if output.len() < limit as usize {
        output.push_reserved(value);
    }
}

// Copies a list of numbers into another one, which has room for it.
fn copy_numbers(from: &[i64], output: &mut Vec<i64>)
    requires room { length from.now ≤ vec_capacity output.old }
    ensures output { output.new.items ≡ from.now }
    ensures capacity { vec_capacity output.new ≡ vec_capacity output.old }
{
    output.clear();
    for value in from {
        output.push_reserved(*value);
    }
}

impl Cells {
    /// Returns the cells of shard `shard` of `shards`, with their declared values. The shard of the
    /// output reserves memory for as many numbers as the program may emit; no other call allocates.
    /// Returns an error only if memory runs out.
    pub fn new(alloc: Global, checked: &Checked, shard: u32, shards: u32) -> Result<Self, NoMemory>
        requires there { shard < shards }
        ensures state { IfOk result (λ cells. IsStateAfter (store_of (tree_of checked.now)) [] cells) }
        ensures number { IfOk result (λ cells. cells.shard.number ≡ shard) }
        ensures shards { IfOk result (λ cells. cells.shard.shards ≡ shards) }
        ensures count { IfOk result (λ cells. cells.shard.cells ≡ cell_total checked.now.cells + 2) }
    {
        let program = checked.program();
        let cells = checked.cell_count();
        let all = initial_values(alloc, program.cells.as_slice())?;
        let output_limit = output_limit(program);
        let room = if shard_of(OUTPUT, shards) == shard {
            output_limit
        } else {
            0
        };
        Ok(Cells {
            cells,
            shard,
            shards,
            output_limit,
            values: values_of_shard(alloc, all.as_slice(), shard, shards)?,
            output: Vec::with_capacity(alloc, room as usize)?,
        })
    }

    /// Returns the value of a cell of the shard. The value of the output is the number of emitted
    /// numbers, up to the limit.
    pub fn read(&self, cell: CellId) -> i64
        requires there { cell.0 < self.now.shard.cells }
        requires own { IsOfShard self.now.shard cell.0 }
        ensures value { (store : InitialStore) (before : List Accessed) → IsStateAfter store before self.now
            → result ≡ value_after store before cell.0 }
        ensures state { (store : InitialStore) (before : List Accessed) → IsStateAfter store before self.now
            → IsStateAfter store (before ++ read_access cell.0 result ∷ []) self.now }
    {
        self.values[slot_of(cell, self.shards)]
    }

    /// Writes a cell of the shard. A write to the output appends the value to the emitted numbers,
    /// unless the limit is reached.
    pub fn write(&mut self, cell: CellId, value: i64)
        requires there { cell.0 < self.old.shard.cells }
        requires own { IsOfShard self.old.shard cell.0 }
        ensures state { (store : InitialStore) (before : List Accessed) → IsStateAfter store before self.old
            → IsStateAfter store (before ++ write_access cell.0 value ∷ []) self.new }
        ensures shard { self.new.shard ≡ self.old.shard }
    {
        let slot = slot_of(cell, self.shards);
        if cell != OUTPUT {
            self.values[slot] = value;
            return;
        }
        push_within(self.output_limit, value, &mut self.output);
        self.values[slot] = self.output.len() as i64;
    }

    /// Takes the value of a cell from other cells of the same program, and the emitted numbers with that
    /// of the output. If `other` is the state after the accesses `here`, this is then the state after any
    /// accesses that write to the cell what `here` writes, and to each other cell what was written before.
    pub fn copy_from(&mut self, other: &Cells, cell: CellId)
        requires there { cell.0 < self.old.shard.cells }
        requires own { IsOfShard self.old.shard cell.0 }
        requires other { IsOfShard other.now.shard cell.0 }
        requires program { (other.now.shard.cells ≡ self.old.shard.cells) × (other.now.shard.output_limit ≡ self.old.shard.output_limit) }
        ensures state { (store : InitialStore) (before here after : List Accessed) → IsStateAfter store before self.old
            → IsStateAfter store here other.now → IsWrittenAs cell.0 here before after → IsStateAfter store after self.new }
        ensures shard { self.new.shard ≡ self.old.shard }
    {
        self.values[slot_of(cell, self.shards)] = other.values[slot_of(cell, other.shards)];
        if cell == OUTPUT {
            copy_numbers(other.output.as_slice(), &mut self.output);
        }
    }

    /// Returns the emitted numbers, up to the limit. A shard without the output has none.
    pub fn output(&self) -> &[i64]
        ensures output { (store : InitialStore) (before : List Accessed) → IsStateAfter store before self.now → HasOutput self.now.shard
            → result.now ≡ output_of store before }
        ensures elsewhere { HasNoOutput self.now.shard → result.now ≡ [] }
    {
        self.output.as_slice()
    }

    /// Returns the emitted numbers as a list, without a copy. A shard without the output has none.
    pub fn into_output(self) -> Numbers
        ensures output { (store : InitialStore) (before : List Accessed) → IsStateAfter store before self → HasOutput self.shard
            → result ≡ output_of store before }
        ensures elsewhere { HasNoOutput self.shard → result ≡ [] }
    {
        ListOf::from_vec(self.output)
    }
}
