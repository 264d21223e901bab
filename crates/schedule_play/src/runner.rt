//! What runs the instances of an iteration in a schedule.

ghost use Rattle.std.specs.Prelude.{◌≡◌, IfOk};
ghost use Rattle.pipe_model.specs.Language.CheckingRules.{cell_total};
ghost use Rattle.pipe_model.specs.Language.SyntaxTree.{SyntaxTree};
ghost use Rattle.stage_interp.specs.MachineState.{IsMadeFor};

use frame_book::payload::Payload;
use heap_value::kept::Kept;
use order_2d::list_writer::ListWriter;
use order_2d::two_orders::TwoOrders;
use pipe_frame::stands::Stands;
use pipe_model::memory::NoMemory;
use stage_code::code::Code;
use stage_code::instr::Part;
use stage_interp::machine::Machine;
use std::alloc::Global;
use std::marker::{Brand, PhantomData};

/// The code that the machines of a schedule run, and the number of cells of its memory. They exist in
/// proofs only, and the call that plays the schedule picks them.
pub trait PlayedCode {
    ghost use Rattle.std.specs.Prelude.{ℕ};
    ghost use Rattle.stage_code.specs.FlatCode.{FlatCode};

    ghost code: { FlatCode };

    ghost cells: { ℕ };
}

impl PlayedCode for Brand {
    ghost use Rattle.std.specs.Prelude.{[], pos};

    ghost code = { record {
      instrs = [];
      init = 0;
      pipe = 0;
      last = 0;
      depth = 0;
      limits = record { iterations = pos 0; stages = pos 0; steps = pos 0; emits = pos 0 };
    } };

    ghost cells = { 0 };
}

/// The payload of a token in a schedule: a machine for the code of `B`.
#[derive(Drop)]
pub struct Runner<B: PlayedCode> {
    /// The machine, on the heap, so that a token is small.
    pub machine: Kept<Machine>,
    of: PhantomData<B>,
}

impl<B: PlayedCode> Runner<B> {
    ghost use Rattle.schedule_play.specs.Runners.{CanRun};

    /// Returns a runner with a machine for this code. Returns an error only if memory runs out.
    pub fn new(alloc: Global, code: &Code) -> Result<Self, NoMemory>
        requires code { code.now ≡ B.code }
        ensures { IfOk result (λ runner. IsMadeFor B.code runner.machine) }
    {
        Ok(Runner {
            machine: Kept::boxed(alloc, Machine::new(alloc, code)?)?,
            of: PhantomData,
        })
    }
}

impl<B: PlayedCode> Stands for Runner<B> {
    ghost use Rattle.schedule_play.specs.Runners.{CanRun, IsAtInstance, no_tie};

    ghost whole = { λ tree x. CanRun B.code B.cells tree x.machine };

    ghost ready_at = { λ tree input x i replies. IsAtInstance B.code B.cells tree input x.machine i replies };

    ghost tie = { λ x. no_tie };

    ghost ready_whole = { λ tree input x i replies h. h.whole };
}

impl<B: PlayedCode, L: ListWriter + Drop> Payload<L> for Runner<B> {
    fn begin(&mut self, iteration: u32) {
        self.machine.get_mut().reset(Part::Pipe, iteration);
    }

    fn started(&mut self, orders: &mut TwoOrders<L>) {
        let _ = orders;
    }
}
