//! Instances that run over the cells of a hall.

ghost use Rattle.std.specs.Prelude.{◌≡◌, ◌≤◌, Some};
ghost use Rattle.pipe_frame.specs.SeatedTokens.{IsGivenToken, seated_replies};
ghost use Rattle.pipe_frame.specs.TokenCounts.{Exchanges};
ghost use Rattle.pipe_frame.specs.TokenFields.{fields_of};
ghost use Rattle.pipe_model.specs.Pipelines.Behaviour.{Behaviour};
ghost use Rattle.pipe_worker.specs.HeldInstances.{MayAdvance};
ghost use Rattle.pipe_worker.specs.Machines.{CanDrive};
ghost use Rattle.stage_code.specs.FlatCode.{FlatCode};
ghost use Rattle.stage_interp.specs.CellNumbers.{most_cell_ids};
ghost use Rattle.stage_interp.specs.Executions.{StopsOnly};
ghost use Rattle.stage_interp.specs.MachineState.{IsMadeFor};
ghost use Rattle.stage_interp.specs.RemainingBehaviour.{RanInstance, Represents};

use crate::lent::LentHall;
use crate::memory::{InstanceMemory, RunningInstance};
use crate::pace::length_of;
use crate::runs::Runs;
use heap_value::kept::Kept;
use pipe_frame::hall::Hall;
use pipe_frame::token::FrameToken;
use pipe_frame::trace::Trace;
use pipe_model::list::Numbers;
use pipe_model::stage::StageEnd;
use stage_code::code::Code;
use stage_interp::machine::Machine;
use stage_interp::memory::Memory;
use std::sync::Wait;

// Runs one stage instance by a machine on the heap. Returns its end, and the steps that it has taken.
fn run_stage_by<M: Memory>(
    machine: &mut Kept<Machine>,
    code: &Code,
    input: &Numbers,
    memory: &mut M,
) -> (StageEnd, i64)
    requires before { (t : Behaviour) × Represents code.now (M.served memory.old) input.now machine.old.run t }
    requires bounded { M.served memory.old ≤ most_cell_ids }
    ensures ran { (t : Behaviour) → Represents code.now (M.served memory.old) input.now machine.old.run t
        → RanInstance code.now (M.served memory.old) input.now t (M.made memory.old) (M.made memory.new) machine.new.run result.0 }
    ensures made { (c : FlatCode) → IsMadeFor c machine.old → IsMadeFor c machine.new }
    ensures stops { StopsOnly (Some result.0) (M.stopped memory.new) }
{
    let lent = machine.get_mut();
    let end = lent.run_stage(code, input, memory);
    (end, lent.steps())
}

/// Runs the instance of a token over the cells of the hall. Returns the hall, the token, the accesses
/// of the instance, its end, and its length, as the worker's pace counts it.
pub fn run_instance<'a, R: Wait, M: Runs + Drop, H: Hall<M>, J: RunningInstance>(
    rt: &R,
    code: &Code,
    input: &Numbers,
    lent: LentHall<'a, H>,
    mut token: FrameToken<M>,
) -> (LentHall<'a, H>, FrameToken<M>, Trace, StageEnd, u64)
    requires reference { lent.hall.ghost_name ≡ J.reference }
    requires named { H.named lent.hall.now ≡ J.named }
    requires counts { H.tokens lent.hall.now ≡ J.counts }
    requires drives { CanDrive M.code J.named code.now input.now }
    requires given { IsGivenToken M.ready_at M.tie J.named token }
    requires iteration { token.iteration ≡ J.iteration }
    requires replies { seated_replies (M.tie token.payload) ≡ J.replies }
    ensures reference { result.0.hall.ghost_name ≡ lent.entry.hall.ghost_name }
    ensures named { H.named result.0.hall.now ≡ J.named }
    ensures tokens { Exchanges 0 0 J.counts (H.tokens result.0.hall.now) }
    ensures advances { MayAdvance M.whole M.ready_at M.tie J.named (H.seen result.0.hall.now) result.1 result.2 result.3 }
{
    let mut machine = token.payload.take_machine();
    let mut memory = InstanceMemory::<R, M, H, J>::new(rt, lent, token);
    let (end, steps) = run_stage_by(&mut machine, code, input, &mut memory);
    let (lent, mut token, trace, accesses) = memory.finish();
    token.payload.put_machine(machine);
    let length = length_of(steps, accesses);
    (lent, token, trace, end, length)
}
