//! A stage instance that runs in a schedule, between two of its events.

ghost use Rattle.std.specs.Prelude.{◌≡◌, ◌≢◌, ◌≤◌, ◌++◌, ◌∷◌, [], List, ℕ};
ghost use Rattle.cell_store.specs.ShardState.{IsStateAfter};
ghost use Rattle.pipe_model.specs.declared.access.Access.{Access as Accessed};
ghost use Rattle.pipe_model.specs.declared.event.Event.TheVariants as events;
ghost use Rattle.pipe_model.specs.Pipelines.Behaviour.{Behaviour};
ghost use Rattle.pipe_model.specs.Pipelines.Pipeline.{Pipeline};
ghost use Rattle.pipe_model.specs.Pipelines.Store.{InitialStore};
ghost use Rattle.schedule_play.specs.OneAccess.{HasAllCells};
ghost use Rattle.schedule_play.specs.RunningInstances.{IsUnderWay, action_at, next_of};
ghost use Rattle.stage_code.specs.FlatCode.{FlatCode};
ghost use Rattle.stage_interp.specs.CellNumbers.{most_cell_ids};
ghost use Rattle.stage_interp.specs.MachineState.{IsMadeFor};
ghost use Rattle.stage_interp.specs.RemainingBehaviour.{Represents};

use crate::instance::{make_access, run_to_access};
use cell_store::cells::Cells;
use pipe_frame::trace::Trace;
use pipe_model::access::Access;
use pipe_model::list::Numbers;
use pipe_model::stage::StageEnd;
use pipe_model::ticket::Entry;
use stage_code::code::Code;
use stage_interp::machine::Machine;

/// What a running stage instance does next.
#[derive(Clone, Copy)]
pub enum NextAction {
    /// It makes an access.
    Access,
    /// It ends so, which is not `Stopped`.
    End(StageEnd),
}

// Returns what an instance does next whose machine has come to rest so.
fn action_at(rest: StageEnd) -> NextAction
    ensures { result ≡ action_at rest }
{
    match rest {
        StageEnd::Stopped => NextAction::Access,
        StageEnd::Wait(_) => NextAction::End(rest),
        StageEnd::Continue(_) => NextAction::End(rest),
        StageEnd::End => NextAction::End(rest),
        StageEnd::Closed => NextAction::End(rest),
        StageEnd::Trap(_) => NextAction::End(rest),
    }
}

/// A stage instance that runs: its accesses so far, and its next event. Its machine is passed to each
/// call.
#[derive(Drop)]
pub struct RunningInstance {
    /// The accesses that it has made, with their tickets.
    pub trace: Trace,
    /// What it does next.
    pub next: NextAction,
}

impl RunningInstance {
    /// Begins an instance: runs its machine up to its first event.
    pub fn new(machine: &mut Machine, code: &Code, input: &Numbers, cells: &Cells) -> Self
        requires before { (t : Behaviour) × Represents code.now cells.now.shard.cells input.now machine.old.run t }
        requires bounded { cells.now.shard.cells ≤ most_cell_ids }
        ensures begun { (t : Behaviour) → Represents code.now cells.now.shard.cells input.now machine.old.run t
            → IsUnderWay code.now cells.now.shard.cells input.now t machine.new.run [] result.next }
        ensures empty { result.trace ≡ [] }
        ensures made { (c : FlatCode) → IsMadeFor c machine.old → IsMadeFor c machine.new }
    {
        RunningInstance {
            trace: Trace::new(),
            next: action_at(run_to_access(machine, code, input, cells)),
        }
    }

    /// Makes the access that is the next event, with this ticket, and runs the machine up to the event
    /// after it. Returns the access.
    pub fn access(
        &mut self,
        machine: &mut Machine,
        code: &Code,
        input: &Numbers,
        cells: &mut Cells,
        ticket: u64,
    ) -> Access
        requires pending { self.old.next ≡ NextAction.Access }
        requires before { (t : Behaviour) × IsUnderWay code.now cells.old.shard.cells input.now t machine.old.run self.old.trace
            self.old.next }
        requires all { HasAllCells cells.old }
        requires bounded { cells.old.shard.cells ≤ most_cell_ids }
        ensures goes_on { (t : Behaviour) → IsUnderWay code.now cells.old.shard.cells input.now t machine.old.run self.old.trace
            self.old.next → IsUnderWay code.now cells.old.shard.cells input.now t machine.new.run self.new.trace self.new.next }
        ensures event { (t : Behaviour) (p : Pipeline) (before : List Accessed) (i : ℕ)
            → IsUnderWay code.now cells.old.shard.cells input.now t machine.old.run self.old.trace self.old.next
            → IsStateAfter p.store before cells.old → next_of p before i t self.old.trace ≡ events.Access i result }
        ensures trace { self.new.trace ≡ self.old.trace ++ record { ticket = ticket; access = result } ∷ [] }
        ensures state { (store : InitialStore) (before : List Accessed) → IsStateAfter store before cells.old
            → IsStateAfter store (before ++ result ∷ []) cells.new }
        ensures shard { cells.new.shard ≡ cells.old.shard }
        ensures made { (c : FlatCode) → IsMadeFor c machine.old → IsMadeFor c machine.new }
    {
        let (access, rest) = make_access(machine, code, input, cells);
        self.trace.note(&Entry { ticket, access });
        self.next = action_at(rest);
        access
    }
}
