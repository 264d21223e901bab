//! The program part: each iteration does what its program does, for the replies that it got.

ghost use Rattle.std.specs.Prelude.{◌≡◌, ◌≤◌, IsTrue};
ghost use Rattle.hall_tests.specs.PreparedPrograms.{IsPrepared};
ghost use Rattle.pipe_frame.specs.StageEndCases.{NamesNextStage};
ghost use Rattle.pipe_model.specs.Language.SyntaxTree.{tree_of};
ghost use Rattle.pipe_model.specs.Pipelines.Behaviour.{Behaviour};
ghost use Rattle.stage_interp.specs.MachineState.{IsMadeFor};
ghost use Rattle.stage_interp.specs.RemainingBehaviour.{Represents};

use crate::checker::Verdict;
use crate::checker::recorded::Recorded;
use crate::sources::Prepared;
use pipe_model::access::Access;
use pipe_model::column::ColumnEnd;
use pipe_model::event::Event;
use pipe_model::list::Numbers;
use pipe_model::node::Kind;
use pipe_model::stage::StageEnd;
use stage_code::code::Code;
use stage_code::instr::Part;
use stage_interp::machine::Machine;
use std::alloc::Global;
use std::mem;

// An action of one iteration.
#[derive(Clone, Copy)]
enum Action {
    Access(Access),
    End(StageEnd),
}

fn end_of(end: ColumnEnd) -> StageEnd {
    match end {
        ColumnEnd::End => StageEnd::End,
        ColumnEnd::Closed => StageEnd::Closed,
        ColumnEnd::Trapped(trap) => StageEnd::Trap(trap),
    }
}

fn naming(kind: Kind, stage: i64) -> StageEnd {
    match kind {
        Kind::Wait => StageEnd::Wait(stage),
        Kind::Continue | Kind::Zero => StageEnd::Continue(stage),
    }
}

// The action that an event is, if it is one of this iteration.
fn action_of(event: Event, iteration: u32) -> Option<Action> {
    match event {
        Event::Access(i, access) if i == iteration => Some(Action::Access(access)),
        Event::Advance(i, kind, stage) if i == iteration => Some(Action::End(naming(kind, stage))),
        Event::Finish(i, end) if i == iteration => Some(Action::End(end_of(end))),
        _ => None,
    }
}

// Whether the iteration goes on after an instance with this end.
fn goes_on(end: StageEnd) -> bool
    ensures { IsTrue result → NamesNextStage end }
{
    match end {
        StageEnd::Wait(_) | StageEnd::Continue(_) => true,
        StageEnd::End | StageEnd::Closed | StageEnd::Trap(_) | StageEnd::Stopped => false,
    }
}

// Runs an instance over a memory that replies as in the log. Returns its end, and whether it has made
// exactly these accesses. If it names a next stage, the machine is at the start of that.
fn replay(
    machine: &mut Machine,
    code: &Code,
    input: &Numbers,
    cells: u32,
    accesses: Vec<Access>,
) -> (StageEnd, bool)
    requires before { (t : Behaviour) × Represents code.now cells input.now machine.old.run t }
    ensures { NamesNextStage result.0 → (t : Behaviour) × Represents code.now cells input.now machine.new.run t }
{
    let mut memory = Recorded::new(cells, accesses);
    let end = machine.run_stage(code, input, &mut memory);
    (end, memory.is_done())
}

// The verdict on an iteration, which does or does not do what its program does.
fn verdict(iteration: u32, same: bool) -> Verdict {
    if same {
        Verdict::Finished
    } else {
        Verdict::Program(iteration)
    }
}

// Goes through the actions of an iteration in the log, with the machine at the start of the iteration.
fn replay_all(
    alloc: Global,
    machine: &mut Machine,
    prepared: &Prepared,
    events: &[Event],
    iteration: u32,
) -> Verdict
    requires prepared { IsPrepared (tree_of prepared.now.checked) prepared.now.code }
    requires made { IsMadeFor prepared.now.code machine.old }
{
    let cells = prepared.cells();
    machine.reset(Part::Pipe, iteration);
    let mut accesses = Vec::new(alloc);
    for event in events {
        match action_of(*event, iteration) {
            None => {}
            Some(Action::Access(access)) => {
                if accesses.push(access).is_err() {
                    return Verdict::OutOfMemory;
                }
            }
            Some(Action::End(end)) => {
                let these = mem::replace(&mut accesses, Vec::new(alloc));
                let (own_end, done) = replay(
                    machine,
                    &prepared.code,
                    &prepared.input,
                    cells,
                    these,
                );
                let same = own_end == end && done;
                if !same || !goes_on(own_end) {
                    return verdict(iteration, same);
                }
            }
        }
    }
    Verdict::Program(iteration)
}

// How many iterations have begun.
fn begun(events: &[Event]) -> u32 {
    let mut begun = 0u32;
    for event in events {
        if let Event::Begin(_) = event {
            begun = begun.saturating_add(1);
        }
    }
    begun
}

// Replays an iteration by a machine of its own.
fn iteration_verdict(
    alloc: Global,
    prepared: &Prepared,
    events: &[Event],
    iteration: u32,
) -> Verdict
    requires prepared { IsPrepared (tree_of prepared.now.checked) prepared.now.code }
{
    let Ok(mut machine) = Machine::new(alloc, &prepared.code) else {
        return Verdict::OutOfMemory;
    };
    let verdict = replay_all(alloc, &mut machine, prepared, events, iteration);
    drop(machine);
    verdict
}

/// Returns what is wrong with the first iteration that does not do, up to its end, what the program does.
pub fn program_verdict(alloc: Global, prepared: &Prepared, events: &[Event]) -> Verdict
    requires prepared { IsPrepared (tree_of prepared.now.checked) prepared.now.code }
{
    for iteration in 0..begun(events) {
        let verdict = iteration_verdict(alloc, prepared, events, iteration);
        if verdict != Verdict::Finished {
            return verdict;
        }
    }
    Verdict::Finished
}
