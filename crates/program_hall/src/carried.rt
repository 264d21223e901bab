//! What the tokens of a run carry.

ghost use Rattle.std.specs.Prelude.{◌≡◌, IfOk, None};

use frame_book::payload::Payload;
use hall_table::carrier::Carrier;
use hall_table::run_seat::RunSeat;
use hall_table::seat_place::SeatPlace;
use heap_value::kept::Kept;
use om_shared::writer::OmWriter;
use order_2d::two_orders::TwoOrders;
use order_2d::two_passes::TwoPasses;
use pipe_frame::stands::Stands;
use pipe_model::memory::NoMemory;
use pipe_worker::runs::Runs;
use stage_code::code::Code;
use stage_code::instr::Part;
use stage_interp::machine::Machine;
use std::alloc::Global;
use std::marker::{Brand, PhantomData};

/// The code that the machines of a run have. It exists in proofs only, and the call that makes the run
/// picks it.
pub trait RunCode {
    ghost use Rattle.stage_code.specs.FlatCode.{FlatCode};

    ghost code: { FlatCode };
}

impl RunCode for Brand {
    ghost use Rattle.std.specs.Prelude.{[], pos};

    ghost code = { record {
      instrs = [];
      init = 0;
      pipe = 0;
      last = 0;
      depth = 0;
      limits = record { iterations = pos 0; stages = pos 0; steps = pos 0; emits = pos 0 };
    } };
}

/// The payload of a token in a hall: a machine for the code of `B`, the seat of its instance while it
/// runs, and passes to the order lists.
#[derive(Drop)]
pub struct Carried<B: RunCode> {
    /// The machine, unless it was taken out to run.
    pub machine: Option<Kept<Machine>>,
    /// The seat of the instance while the token is out of the book.
    pub seat: SeatPlace,
    /// The passes to the order lists.
    pub passes: TwoPasses,
    of: PhantomData<B>,
}

impl<B: RunCode> Carried<B> {
    ghost use Rattle.pipe_worker.specs.Machines.{HasMachine};
    ghost use Rattle.stage_interp.specs.MachineState.{IsMadeFor};

    /// Returns a payload with a machine for this code. Returns an error only if memory runs out.
    pub fn new(alloc: Global, code: &Code, passes: TwoPasses) -> Result<Self, NoMemory>
        requires code { code.now ≡ B.code }
        ensures machine { IfOk result (λ carried. HasMachine carried.machine (IsMadeFor B.code)) }
        ensures seat { IfOk result (λ carried. carried.seat ≡ None) }
        ensures passes { IfOk result (λ carried. carried.passes ≡ passes) }
    {
        Ok(Carried {
            machine: Some(Kept::boxed(alloc, Machine::new(alloc, code)?)?),
            seat: SeatPlace::new(),
            passes,
            of: PhantomData,
        })
    }
}

impl<B: RunCode> Stands for Carried<B> {
    ghost use Rattle.pipe_worker.specs.Machines.{CanRun, HasMachine, IsAtInstance, ready_whole};
    ghost use Rattle.hall_table.specs.Lending.{tie_of};

    ghost whole = { λ tree x. HasMachine x.machine (CanRun B.code tree) };

    ghost ready_at = { λ tree input x i replies. HasMachine x.machine (λ m. IsAtInstance B.code tree input m i replies) };

    ghost tie = { λ x. tie_of x.passes x.seat };

    ghost ready_whole = { λ tree input x i replies h. ready_whole B.code tree input x.machine i replies h };
}

impl<B: RunCode> Runs for Carried<B> {
    ghost code = { B.code };

    ghost held = { λ x. x.machine };

    fn take_machine(&mut self) -> Kept<Machine> {
        match self.machine.take() {
            Some(machine) => machine,
            None => unreachable!(),
        }
    }

    fn put_machine(&mut self, machine: Kept<Machine>) {
        self.machine = Some(machine);
    }

    ghost machine_ready = { λ tree input x i replies h. h };

    ghost ready_by_machine = { λ tree input x i replies h. h };

    ghost by_machine = { λ tree x h. h };
}

impl<B: RunCode> Payload<OmWriter> for Carried<B> {
    fn begin(&mut self, iteration: u32) {
        if let Some(machine) = &mut self.machine {
            machine.get_mut().reset(Part::Pipe, iteration);
        }
    }

    fn started(&mut self, orders: &mut TwoOrders<OmWriter>) {
        orders.confirm(&mut self.passes);
    }
}

impl<B: RunCode> Carrier for Carried<B> {
    ghost use Rattle.std.specs.Prelude.{refl};

    ghost lists = { λ x. x.passes };

    ghost seat = { λ x. x.seat };

    ghost with_lists = { λ x l. record x { passes = l } };

    ghost with_seat = { λ x s. record x { seat = s } };

    fn take_seat(&mut self) -> SeatPlace {
        self.seat.take()
    }

    fn put_seat(&mut self, run: RunSeat) {
        self.seat.put(run);
    }

    fn passes(&mut self) -> &mut TwoPasses {
        &mut self.passes
    }

    ghost tied = { λ x. refl };

    ghost seat_is = { λ x s. (refl, refl) };

    ghost lists_are = { λ x. refl };

    ghost seat_whole = { λ tree x s h. h };

    ghost seat_ready = { λ tree input x s i replies h. h };
}
