//! An execution of code, instruction by instruction.

ghost use Rattle.std.specs.Prelude.{◌≡◌, ◌≤◌, IfOk, length, pos};
ghost use Rattle.pipe_model.specs.declared.bounds.TheConstants as bounds;
ghost use Rattle.pipe_model.specs.Language.Programs.{natural};

use crate::pending::Pending;
use crate::stack::Stack;
use pipe_model::bounds::MOST_LOCALS;
use pipe_model::memory::NoMemory;
use std::alloc::Global;

/// An execution: the index of its next instruction, the budget of steps of the instance that was run last
/// (0 if none was run) and the steps left of it, the stack, the slots of locals, the stage's number, the
/// number of instances so far, the iteration, and what is pending.
#[derive(Drop)]
pub struct Execution {
    pub place: u32,
    pub budget: u64,
    pub left: u64,
    pub stack: Stack,
    pub slots: Vec<i64>,
    pub number: i64,
    pub count: u64,
    pub iteration: u32,
    pub pending: Pending,
}

impl Execution {
    // Returns an execution with room for `depth` numbers on the stack and a slot for each local.
    pub fn new(alloc: Global, depth: u32) -> Result<Self, NoMemory>
        ensures depth { IfOk result (λ m. m.stack.depth ≡ depth) }
        ensures slots { IfOk result (λ m. bounds.MOST_LOCALS ≤ length m.slots.items) }
        ensures budget { IfOk result (λ m. m.budget ≡ 0) }
        ensures left { IfOk result (λ m. m.left ≡ 0) }
    {
        Ok(Execution {
            place: 0,
            budget: 0,
            left: 0,
            stack: Stack::new(alloc, depth)?,
            slots: vec![in alloc; 0; MOST_LOCALS]?,
            number: 0,
            count: 1,
            iteration: 0,
            pending: Pending::Nothing,
        })
    }
}

impl Execution {
    ghost use Rattle.stage_interp.specs.Executions.{run_of};
    ghost use Rattle.stage_interp.specs.MachineState.{IsAtStart, steps_of};

    // Goes to the start of a part, in an iteration.
    pub fn reset(&mut self, start: u32, iteration: u32)
        requires { bounds.MOST_LOCALS ≤ length self.old.slots.items }
        ensures start { IsAtStart (run_of self.new) start iteration }
        ensures depth { self.new.stack.depth ≡ self.old.stack.depth }
        ensures slots { length self.new.slots.items ≡ length self.old.slots.items }
        ensures budget { self.new.budget ≡ 0 }
        ensures left { self.new.left ≡ 0 }
    {
        self.place = start;
        self.iteration = iteration;
        self.stack.clear();
        self.number = 0;
        self.count = 1;
        self.budget = 0;
        self.left = 0;
        self.pending = Pending::Nothing;
    }

    // Returns the steps so far of the instance that was run last.
    pub fn steps(&self) -> i64
        requires left { self.now.left ≤ self.now.budget }
        requires budget { self.now.budget ≤ natural bounds.MOST_STEPS }
        ensures { result ≡ pos (steps_of (run_of self.now)) }
    {
        (self.budget - self.left) as i64
    }
}
