//! A stage instance that is stopped before an access, and goes on with it.

ghost use Rattle.std.specs.Prelude.{◌≡◌, ◌≤◌, None, length};
ghost use Rattle.pipe_model.specs.Language.CheckingRules.{fault_of};
ghost use Rattle.pipe_model.specs.Language.SyntaxTree.{tree_of};
ghost use Rattle.pipe_model.specs.Pipelines.Behaviour.{Behaviour};
ghost use Rattle.stage_interp.specs.CellNumbers.{most_cell_ids};
ghost use Rattle.stage_interp.specs.RemainingBehaviour.{Represents};

use crate::sources::accepted;
use crate::stopping_memory::StoppingMemory;
use pipe_check::checked::Checked;
use pipe_model::access::{Access, AccessKind, CellId};
use pipe_model::list::Numbers;
use pipe_model::memory::NoMemory;
use pipe_model::stage::StageEnd;
use stage_code::code::Code;
use stage_code::instr::Part;
use stage_code::lower::lower;
use stage_interp::machine::Machine;
use std::alloc::Global;

const SOURCE: &str = "limits iterations 8, stages 4, steps 100, emits 8; cell n = 0; cell s = 0; \
    pipe_while (n < 3) { n = n + 1; let t = n; pipe_wait(1); s = s + t; emit s; }";

// The cell `n`.
const N: CellId = CellId(2);

// Accesses to `n`.
const READ: Access = Access {
    cell: N,
    kind: AccessKind::Read,
    value: 0,
};

const WRITE: Access = Access {
    cell: N,
    kind: AccessKind::Write,
    value: 1,
};

const READ_AGAIN: Access = Access {
    cell: N,
    kind: AccessKind::Read,
    value: 1,
};

// Runs an instance until it is stopped, and then lets it make two accesses more. Returns its end, or
// nothing if it was not stopped after two reads.
fn end_after_stop(
    machine: &mut Machine,
    code: &Code,
    input: &Numbers,
    memory: &mut StoppingMemory,
) -> Option<StageEnd>
    requires before { (t : Behaviour) × Represents code.now (length memory.old.values.items) input.now machine.old.run t }
    requires bounded { length memory.old.values.items ≤ most_cell_ids }
{
    let end = machine.run_stage(code, input, memory);
    let StageEnd::Stopped = end else {
        return None;
    };
    if memory.made.as_slice() != &[READ, READ][..] {
        return None;
    }
    memory.left = 2;
    Some(machine.go_on(code, input, memory))
}

// Runs the first instance of the loop, which is stopped after two accesses. Returns its end, and whether
// it has made its four accesses.
fn first_instance(alloc: Global, checked: &Checked) -> Result<(Option<StageEnd>, bool), NoMemory>
    requires accepted { fault_of (tree_of checked.now) ≡ None }
{
    let code = lower(alloc, checked)?;
    let input = Numbers::new(alloc);
    let mut memory = StoppingMemory::new(alloc, checked.cell_count(), 2)?;
    let mut machine = Machine::new(alloc, &code)?;
    machine.reset(Part::Pipe, 0);
    let end = end_after_stop(&mut machine, &code, &input, &mut memory);
    let accesses = [READ, READ, WRITE, READ_AGAIN];
    let are_made = memory.made.as_slice() == accesses.as_slice();
    drop(machine);
    drop(memory);
    drop(input);
    drop(code);
    Ok((end, are_made))
}

// The same for the program of the source; nothing if it is refused or memory runs out.
fn stopped_instance(alloc: Global) -> Option<(Option<StageEnd>, bool)> {
    let checked = accepted(alloc, SOURCE.as_bytes())?;
    let found = first_instance(alloc, &checked).ok();
    drop(checked);
    found
}

#[test]
fn a_stopped_instance_goes_on(rt: HostRuntime) {
    let found = stopped_instance(rt.alloc());
    assert!(rt; found == Some((Some(StageEnd::Wait(1)), true)), "{found:?}");
}
