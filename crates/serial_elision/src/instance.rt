//! Stage instances.

ghost use Rattle.std.specs.Prelude.{◌≡◌, ◌≤◌, IfOk};
ghost use Rattle.pipe_model.specs.declared.column.ColumnEnd.{ColumnEnd};
ghost use Rattle.pipe_model.specs.Language.Interaction.{Interaction};
ghost use Rattle.pipe_model.specs.Language.Programs.{natural};
ghost use Rattle.pipe_model.specs.Pipelines.Behaviour.{Behaviour};
ghost use Rattle.stage_code.specs.FlatCode.{FlatCode};
ghost use Rattle.stage_interp.specs.CellNumbers.{most_cell_ids};
ghost use Rattle.stage_interp.specs.MachineState.{IsMadeFor};
ghost use Rattle.stage_interp.specs.RemainingBehaviour.{Represents};
ghost use Rattle.stage_interp.specs.TreeRuns.{RepresentsTree};
ghost use Rattle.serial_elision.specs.Recording.{IsWhole};
ghost use Rattle.serial_elision.specs.InstanceRuns.{CountsNext, RanFrom, RanTreeFrom, instance_end};

use crate::log::Log;
use crate::prepared::Prepared;
use crate::recorder::{Beginning, Recorder};
use pipe_model::column::ColumnEnd;
use pipe_model::memory::NoMemory;
use pipe_model::node::{Kind, NodeId};
use pipe_model::stage::StageEnd;
use stage_interp::machine::Machine;
use std::marker::Brand;

/// How an instance ended.
#[derive(Clone, Copy)]
pub enum InstanceEnd {
    /// By the naming of a next instance.
    Next(Kind, i64),
    /// With the end of its iteration, of `init` or of `final`.
    Ended(ColumnEnd),
}

// Returns how an instance ended, unless it was stopped.
fn instance_end(end: StageEnd) -> Option<InstanceEnd>
    ensures { result ≡ instance_end end }
{
    match end {
        StageEnd::Wait(n) => Some(InstanceEnd::Next(Kind::Wait, n)),
        StageEnd::Continue(n) => Some(InstanceEnd::Next(Kind::Continue, n)),
        StageEnd::End => Some(InstanceEnd::Ended(ColumnEnd::End)),
        StageEnd::Closed => Some(InstanceEnd::Ended(ColumnEnd::Closed)),
        StageEnd::Trap(trap) => Some(InstanceEnd::Ended(ColumnEnd::Trapped(trap))),
        StageEnd::Stopped => None,
    }
}

// Runs an instance that begins with the log and the node of `B`.
fn run_from<B: Beginning>(
    machine: &mut Machine,
    prepared: &Prepared,
    node: NodeId,
    log: Log,
) -> Result<(InstanceEnd, Log), NoMemory>
    requires log { log ≡ B.log }
    requires node { node ≡ B.node }
    requires whole { IsWhole log.cells }
    requires bounded { log.cells.shard.cells ≤ most_cell_ids }
    requires before { (t : Behaviour) × Represents prepared.now.code.now log.cells.shard.cells prepared.now.input.now machine.old.run t }
    ensures ran { IfOk result (λ r. (t : Behaviour) → Represents prepared.now.code.now log.cells.shard.cells prepared.now.input.now
        machine.old.run t
        → RanFrom prepared.now.code.now log.cells.shard.cells prepared.now.input.now t node log r.1 machine.new.run r.0) }
    ensures tree { IfOk result (λ r. (d : Interaction ColumnEnd)
        → RepresentsTree prepared.now.code.now log.cells.shard.cells prepared.now.input.now machine.old.run d
        → RanTreeFrom prepared.now.code.now log.cells.shard.cells prepared.now.input.now d node log r.1 machine.new.run r.0) }
    ensures budget { machine.new.run.budget ≡ natural prepared.now.code.now.limits.steps }
    ensures whole { IfOk result (λ r. IsWhole r.1.cells) }
    ensures shard { IfOk result (λ r. r.1.cells.shard ≡ log.cells.shard) }
    ensures made { (code : FlatCode) → IsMadeFor code machine.old → IsMadeFor code machine.new }
    ensures counts { IfOk result (λ r. CountsNext r.0 machine.old.run.state.stage.count machine.new.run.state.stage.count
        (natural prepared.now.code.now.limits.stages)) }
{
    let mut recorder = Recorder::<B>::new(log, node);
    let end = machine.run_stage(prepared.code, prepared.input, &mut recorder);
    if recorder.is_full() {
        return Err(NoMemory);
    }
    match instance_end(end) {
        Some(end) => Ok((end, recorder.into_log())),
        None => Err(NoMemory),
    }
}

// Runs a stage instance from its beginning to its end, and records its accesses. Returns an error
// only if memory runs out.
pub fn run_instance(
    machine: &mut Machine,
    prepared: &Prepared,
    node: NodeId,
    log: Log,
) -> Result<(InstanceEnd, Log), NoMemory>
    requires whole { IsWhole log.cells }
    requires bounded { log.cells.shard.cells ≤ most_cell_ids }
    requires before { (t : Behaviour) × Represents prepared.now.code.now log.cells.shard.cells prepared.now.input.now machine.old.run t }
    ensures ran { IfOk result (λ r. (t : Behaviour) → Represents prepared.now.code.now log.cells.shard.cells prepared.now.input.now
        machine.old.run t
        → RanFrom prepared.now.code.now log.cells.shard.cells prepared.now.input.now t node log r.1 machine.new.run r.0) }
    ensures tree { IfOk result (λ r. (d : Interaction ColumnEnd)
        → RepresentsTree prepared.now.code.now log.cells.shard.cells prepared.now.input.now machine.old.run d
        → RanTreeFrom prepared.now.code.now log.cells.shard.cells prepared.now.input.now d node log r.1 machine.new.run r.0) }
    ensures budget { machine.new.run.budget ≡ natural prepared.now.code.now.limits.steps }
    ensures whole { IfOk result (λ r. IsWhole r.1.cells) }
    ensures shard { IfOk result (λ r. r.1.cells.shard ≡ log.cells.shard) }
    ensures made { (code : FlatCode) → IsMadeFor code machine.old → IsMadeFor code machine.new }
    ensures counts { IfOk result (λ r. CountsNext r.0 machine.old.run.state.stage.count machine.new.run.state.stage.count
        (natural prepared.now.code.now.limits.stages)) }
{
    run_from::<Brand>(machine, prepared, node, log)
}
