//! The machine that runs stage instances.

ghost use Rattle.std.specs.Prelude.{◌≡◌, ◌≤◌, ◌+◌, ℕ, ℤ, List, Some, IfOk, pos};
ghost use Rattle.pipe_model.specs.declared.column.ColumnEnd.{ColumnEnd};
ghost use Rattle.pipe_model.specs.Language.CheckingRules.{cell_total};
ghost use Rattle.pipe_model.specs.Language.Interaction.{Interaction};
ghost use Rattle.pipe_model.specs.Language.Programs.{natural};
ghost use Rattle.pipe_model.specs.Language.SyntaxTree.{SyntaxTree};
ghost use Rattle.pipe_model.specs.Pipelines.Behaviour.{Behaviour};
ghost use Rattle.stage_code.specs.FlatCode.{FlatCode};
ghost use Rattle.stage_interp.specs.CellNumbers.{most_cell_ids};
ghost use Rattle.stage_interp.specs.Executions.{Counts, StopsOnly};
ghost use Rattle.stage_interp.specs.MachineState.{IsMadeFor, iteration_in, start_in, steps_of};
ghost use Rattle.stage_interp.specs.RemainingBehaviour.{IsCodeOf, IsStopped, RanInstance, Represents, behaviour_in};
ghost use Rattle.stage_interp.specs.TreeRuns.{IsStoppedTree, RanTree, RepresentsTree, interaction_in};

use crate::execution::Execution;
use crate::memory::Memory;
use pipe_model::list::Numbers;
use pipe_model::memory::NoMemory;
use pipe_model::stage::StageEnd;
use stage_code::code::Code;
use stage_code::instr::Part;
use std::alloc::Global;
use std::marker::Model;

// Returns the iteration in which a part runs: 0 for `init` and `final`, which belong to none.
fn iteration_in(part: Part, iteration: u32) -> u32
    ensures { result ≡ iteration_in part iteration }
{
    match part {
        Part::Pipe => iteration,
        Part::Init => 0,
        Part::Last => 0,
    }
}

/// A machine that runs the code of a program, one stage instance at a time.
#[derive(Drop)]
pub struct Machine {
    // Taken out while it runs, so that its fields are in registers.
    execution: Option<Execution>,
    init: u32,
    pipe: u32,
    last: u32,
}

impl Model for Machine {
    ghost use Rattle.stage_interp.specs.Executions.{HasExecution, run_in};
    ghost use Rattle.stage_interp.specs.MachineState.{MachineState};

    ghost Value = { MachineState };

    ghost view = { λ m. record { init = m.init; pipe = m.pipe; last = m.last; run = run_in m.execution } };

    ghost invariant = { λ m. HasExecution m.execution };
}

impl Machine {
    /// Returns a machine for this code, at the start of no part yet. It has all memory that it will
    /// need.
    ///
    /// # Errors
    /// Out of memory.
    pub fn new(alloc: Global, code: &Code) -> Result<Self, NoMemory>
        ensures made { IfOk result (λ m. IsMadeFor code.now m) }
        ensures steps { IfOk result (λ m. steps_of m.run ≡ 0) }
    {
        let execution = Execution::new(alloc, code.depth())?;
        Ok(Machine {
            execution: Some(execution),
            init: code.start(Part::Init),
            pipe: code.start(Part::Pipe),
            last: code.start(Part::Last),
        })
    }

    // Returns the index of the first instruction of a part.
    fn start(&self, part: Part) -> u32
        ensures { result ≡ start_in self.now part }
    {
        match part {
            Part::Init => self.init,
            Part::Pipe => self.pipe,
            Part::Last => self.last,
        }
    }

    /// Goes to the start of a part, in an iteration; `init` and `final` belong to no iteration. The
    /// machine then has the whole behaviour of the part left to do, for every input, and over every
    /// memory that serves the cells of the program.
    pub fn reset(&mut self, part: Part, iteration: u32)
        ensures made { (code : FlatCode) → IsMadeFor code self.old → IsMadeFor code self.new }
        ensures represents { (tree : SyntaxTree) (code : FlatCode) (cells : ℕ) (input : List ℤ)
            → IsCodeOf tree code → IsMadeFor code self.old
            → cell_total tree.cells + 2 ≤ cells → Represents code cells input self.new.run (behaviour_in tree input part iteration) }
        ensures tree { (tree : SyntaxTree) (code : FlatCode) (cells : ℕ) (input : List ℤ) → IsCodeOf tree code → IsMadeFor code self.old
            → cell_total tree.cells + 2 ≤ cells → RepresentsTree code cells input self.new.run (interaction_in tree input part iteration) }
        ensures steps { steps_of self.new.run ≡ 0 }
    {
        let start = self.start(part);
        let Some(taken) = self.execution.take() else {
            unreachable!()
        };
        let mut execution = taken;
        execution.reset(start, iteration_in(part, iteration));
        self.execution = Some(execution);
    }

    /// Runs one stage instance from its beginning, with this code, input and memory. It appends to
    /// the memory's accesses those of the instance, for the replies that the memory gave, up to the
    /// instance's end, which it returns; after `Wait` or `Continue` the machine is at the beginning
    /// of the next instance. It returns `Stopped` only if the memory has stopped and the next action
    /// of the instance is an access; the accesses are then those before it. It does not allocate.
    #[inline(never)]
    pub fn run_stage<M: Memory>(&mut self, code: &Code, input: &Numbers, memory: &mut M) -> StageEnd
        requires before { (t : Behaviour) × Represents code.now (M.served memory.old) input.now self.old.run t }
        requires bounded { M.served memory.old ≤ most_cell_ids }
        ensures ran { (t : Behaviour) → Represents code.now (M.served memory.old) input.now self.old.run t
            → RanInstance code.now (M.served memory.old) input.now t (M.made memory.old) (M.made memory.new) self.new.run result }
        ensures tree { (d : Interaction ColumnEnd) → RepresentsTree code.now (M.served memory.old) input.now self.old.run d
            → RanTree code.now (M.served memory.old) input.now d (natural code.now.limits.steps) (M.made memory.old)
            (M.made memory.new) self.new.run
            result }
        ensures budget { self.new.run.budget ≡ natural code.now.limits.steps }
        ensures made { (c : FlatCode) → IsMadeFor c self.old → IsMadeFor c self.new }
        ensures counts { Counts (Some result) self.old.run.state.stage.count self.new.run.state.stage.count
            (natural code.now.limits.stages) }
        ensures stops { StopsOnly (Some result) (M.stopped memory.new) }
        ensures serves { M.served memory.new ≡ M.served memory.old }
    {
        match self.execution.take() {
            None => unreachable!(),
            Some(taken) => {
                let mut execution = taken;
                let end = execution.run_stage(code, input, memory);
                self.execution = Some(execution);
                end
            }
        }
    }

    /// Goes on with a stage instance for which `run_stage` or `go_on` returned `Stopped`, from the
    /// access that was refused, with the same code and input. It does and returns the same as
    /// `run_stage` for what is left of the instance.
    #[inline(never)]
    pub fn go_on<M: Memory>(&mut self, code: &Code, input: &Numbers, memory: &mut M) -> StageEnd
        requires before { (t : Behaviour) × IsStopped code.now (M.served memory.old) input.now self.old.run t }
        requires bounded { M.served memory.old ≤ most_cell_ids }
        ensures ran { (t : Behaviour) → IsStopped code.now (M.served memory.old) input.now self.old.run t
            → RanInstance code.now (M.served memory.old) input.now t (M.made memory.old) (M.made memory.new) self.new.run result }
        ensures tree { (d : Interaction ColumnEnd) → IsStoppedTree code.now (M.served memory.old) input.now self.old.run d
            → RanTree code.now (M.served memory.old) input.now d self.old.run.left (M.made memory.old)
            (M.made memory.new) self.new.run result }
        ensures budget { self.new.run.budget ≡ self.old.run.budget }
        ensures made { (c : FlatCode) → IsMadeFor c self.old → IsMadeFor c self.new }
        ensures counts { Counts (Some result) self.old.run.state.stage.count self.new.run.state.stage.count
            (natural code.now.limits.stages) }
        ensures stops { StopsOnly (Some result) (M.stopped memory.new) }
        ensures serves { M.served memory.new ≡ M.served memory.old }
    {
        match self.execution.take() {
            None => unreachable!(),
            Some(taken) => {
                let mut execution = taken;
                let end = execution.go_on(code, input, memory);
                self.execution = Some(execution);
                end
            }
        }
    }

    /// Returns the steps so far of the stage instance that was run last: its budget without the
    /// steps that are left of it. Returns 0 if none was run since `new` or `reset`.
    pub fn steps(&self) -> i64
        ensures { result ≡ pos (steps_of self.now.run) }
    {
        match &self.execution {
            None => unreachable!(),
            Some(execution) => execution.steps(),
        }
    }
}
