//! Stage instances, one access at a time.

ghost use Rattle.std.specs.Prelude.{◌≡◌, ◌≤◌, ◌<◌, ◌++◌, ◌∷◌, [], List, Some};
ghost use Rattle.cell_store.specs.ShardState.{IsOfShard, IsStateAfter};
ghost use Rattle.pipe_model.specs.declared.access.Access.{Access as Accessed};
ghost use Rattle.pipe_model.specs.Language.Programs.{natural};
ghost use Rattle.pipe_model.specs.Pipelines.Behaviour.{Behaviour};
ghost use Rattle.pipe_model.specs.Pipelines.Store.{HasReply, InitialStore};
ghost use Rattle.schedule_play.specs.OneAccess.{HasAllCells, IsNextAccess};
ghost use Rattle.stage_code.specs.FlatCode.{FlatCode};
ghost use Rattle.stage_interp.specs.CellNumbers.{most_cell_ids};
ghost use Rattle.stage_interp.specs.Executions.{Counts};
ghost use Rattle.stage_interp.specs.MachineState.{IsMadeFor};
ghost use Rattle.stage_interp.specs.RemainingBehaviour.{IsStopped, RanInstance, Represents};

use crate::one_access::{CellsBefore, NoAccess, OneAccess};
use cell_store::cells::Cells;
use pipe_model::access::{Access, AccessKind};
use pipe_model::list::Numbers;
use pipe_model::stage::StageEnd;
use stage_code::code::Code;
use stage_interp::machine::Machine;
use std::marker::Brand;

/// Runs a stage instance from its beginning up to its first access, which the memory refuses. Returns
/// how the machine has come to rest: `Stopped` if an access is pending, and otherwise the instance's
/// end. It does not allocate.
pub fn run_to_access(machine: &mut Machine, code: &Code, input: &Numbers, cells: &Cells) -> StageEnd
    requires before { (t : Behaviour) × Represents code.now cells.now.shard.cells input.now machine.old.run t }
    requires bounded { cells.now.shard.cells ≤ most_cell_ids }
    ensures ran { (t : Behaviour) → Represents code.now cells.now.shard.cells input.now machine.old.run t
        → RanInstance code.now cells.now.shard.cells input.now t [] [] machine.new.run result }
    ensures made { (c : FlatCode) → IsMadeFor c machine.old → IsMadeFor c machine.new }
    ensures counts { Counts (Some result) machine.old.run.state.stage.count machine.new.run.state.stage.count
        (natural code.now.limits.stages) }
{
    let mut memory = NoAccess::new(cells);
    machine.run_stage(code, input, &mut memory)
}

// Runs a stopped instance over the cells of `B` up to its second access, and returns the first, which
// it does not carry out.
fn next_access<B: CellsBefore>(
    machine: &mut Machine,
    code: &Code,
    input: &Numbers,
    cells: &Cells,
) -> (Access, StageEnd)
    requires cells { cells.now ≡ B.cells }
    requires all { HasAllCells cells.now }
    requires bounded { cells.now.shard.cells ≤ most_cell_ids }
    requires before { (t : Behaviour) × IsStopped code.now cells.now.shard.cells input.now machine.old.run t }
    ensures ran { (t : Behaviour) → IsStopped code.now cells.now.shard.cells input.now machine.old.run t
        → RanInstance code.now cells.now.shard.cells input.now t [] (result.0 ∷ []) machine.new.run result.1 }
    ensures next { IsNextAccess cells.now result.0 }
    ensures made { (c : FlatCode) → IsMadeFor c machine.old → IsMadeFor c machine.new }
    ensures counts { Counts (Some result.1) machine.old.run.state.stage.count machine.new.run.state.stage.count
        (natural code.now.limits.stages) }
{
    let mut memory = OneAccess::<B>::new(cells);
    let end = machine.go_on(code, input, &mut memory);
    match memory.access() {
        Some(access) => (access, end),
        None => unreachable!(),
    }
}

// Carries out an access.
fn carry_out(cells: &mut Cells, access: Access)
    requires there { access.cell.0 < cells.old.shard.cells }
    requires own { IsOfShard cells.old.shard access.cell.0 }
    ensures state { (store : InitialStore) (before : List Accessed) → IsStateAfter store before cells.old
        → IsStateAfter store (before ++ access ∷ []) cells.new }
    ensures shard { cells.new.shard ≡ cells.old.shard }
{
    match access.kind {
        AccessKind::Read => {}
        AccessKind::Write => cells.write(access.cell, access.value),
    }
}

/// Makes the pending access of a stopped stage instance, and runs the instance on up to its next
/// access, which the memory refuses. Returns the access, and how the machine has come to rest:
/// `Stopped` if a further access is pending, and otherwise the instance's end. It does not allocate.
pub fn make_access(
    machine: &mut Machine,
    code: &Code,
    input: &Numbers,
    cells: &mut Cells,
) -> (Access, StageEnd)
    requires before { (t : Behaviour) × IsStopped code.now cells.old.shard.cells input.now machine.old.run t }
    requires all { HasAllCells cells.old }
    requires bounded { cells.old.shard.cells ≤ most_cell_ids }
    ensures ran { (t : Behaviour) → IsStopped code.now cells.old.shard.cells input.now machine.old.run t
        → RanInstance code.now cells.old.shard.cells input.now t [] (result.0 ∷ []) machine.new.run result.1 }
    ensures reply { (store : InitialStore) (before : List Accessed) → IsStateAfter store before cells.old → HasReply store before result.0 }
    ensures state { (store : InitialStore) (before : List Accessed) → IsStateAfter store before cells.old
        → IsStateAfter store (before ++ result.0 ∷ []) cells.new }
    ensures shard { cells.new.shard ≡ cells.old.shard }
    ensures made { (c : FlatCode) → IsMadeFor c machine.old → IsMadeFor c machine.new }
    ensures counts { Counts (Some result.1) machine.old.run.state.stage.count machine.new.run.state.stage.count
        (natural code.now.limits.stages) }
{
    let (access, end) = next_access::<Brand>(machine, code, input, cells);
    carry_out(cells, access);
    (access, end)
}
