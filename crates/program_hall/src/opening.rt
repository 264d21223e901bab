//! Halls of programs.

ghost use Rattle.std.specs.Prelude.{◌≡◌, ◌<◌, ◌≤◌, ◌+◌, ◌*◌, [], All, IfOk, length};
ghost use Rattle.order_2d.specs.declared.starts.TheConstants.{MOST_STARTS};
ghost use Rattle.program_hall.specs.OpenedHalls.{IsOpenedFor};
ghost use Rattle.hall_table.specs.ShardParts.{HaveIdentities};
ghost use Rattle.hall_table.specs.WorkerSeats.{hall_name};
ghost use Rattle.pipe_model.specs.Language.CheckingRules.{BreaksNoRule};
ghost use Rattle.pipe_model.specs.Language.Programs.{natural};
ghost use Rattle.pipe_model.specs.Language.SyntaxTree.{tree_of};
ghost use Rattle.pipe_worker.specs.Machines.{CanDrive, HasMachine};
ghost use Rattle.stage_code.specs.LimitRanges.{HasRangesOfLimits};
ghost use Rattle.stage_interp.specs.MachineState.{IsMadeFor};
ghost use Rattle.stage_interp.specs.RemainingBehaviour.{IsCodeOf};

use crate::carried::{Carried, RunCode};
use frame_book::book::Book;
use om_shared::writer::{OmWriter, start_two};
use order_2d::two_orders::TwoOrders;
use order_2d::two_passes::TwoPasses;
use pipe_hall::hall::{HallKey, HallOf, hall_after};
use pipe_model::access::Accesses;
use pipe_model::memory::NoMemory;
use pipe_model::tree::Limits;
use serial_elision::prepared::Prepared;
use stage_code::code::Code;
use std::alloc::Global;

// Returns how many elements an order list has room for in each run of a program with these limits: the
// first, and two for each instance.
fn most_elements(limits: Limits) -> u32
    requires ranges { HasRangesOfLimits limits }
    requires bounded { natural limits.iterations * natural limits.stages + 1 ≤ MOST_STARTS }
    ensures { result ≡ 2 * (natural limits.iterations * natural limits.stages + 1) + 1 }
{
    let instances = limits.iterations as u64 * limits.stages as u64 + 1;
    2 * instances as u32 + 1
}

// Returns two order lists with room for this many elements each, whose labels are put off, and passes
// to them.
fn orders(alloc: Global, capacity: u32) -> Result<(TwoOrders<OmWriter>, TwoPasses), NoMemory>
    requires positive { 0 < capacity }
    requires bounded { capacity ≤ 2 * MOST_STARTS + 1 }
    ensures logs { IfOk result (λ r. (r.0.down.log ≡ []) × (r.0.right.log ≡ [])) }
    ensures room { IfOk result (λ r. (r.0.down.capacity ≡ capacity) × (r.0.right.capacity ≡ capacity)) }
    ensures lists { IfOk result (λ r. (r.1.down ≡ r.0.down.identity) × (r.1.right ≡ r.0.right.identity)) }
    ensures identities { IfOk result (λ r. HaveIdentities r.1) }
{
    let ((down, down_pass), (right, right_pass)) = start_two(alloc, capacity)?;
    let passes = TwoPasses::new(down_pass, right_pass);
    let mut orders = TwoOrders::new(down, right);
    orders.defer();
    Ok((orders, passes))
}

// Returns payloads with passes to the same lists.
fn payloads<B: RunCode>(
    alloc: Global,
    code: &Code,
    passes: &mut TwoPasses,
    count: u32,
) -> Result<Vec<Carried<B>>, NoMemory>
    requires code { code.now ≡ B.code }
    ensures unchanged { passes.new ≡ passes.old }
    ensures count { IfOk result (λ payloads. length payloads.items ≡ count) }
    ensures made { IfOk result (λ payloads. All (λ x. HasMachine x.machine (IsMadeFor B.code)) payloads.items) }
    ensures passes { IfOk result (λ payloads. All (λ x. x.passes ≡ passes.old) payloads.items) }
{
    let mut payloads = Vec::new(alloc);
    for _ in 0..count {
        payloads.push(Carried::new(alloc, code, passes.split()?)?)?;
    }
    Ok(payloads)
}

/// Returns a hall of a program, and the seat of its first worker. At most `throttle` iterations may be
/// alive. The cells are those after the accesses `before`. Returns an error only if memory runs out.
pub fn open<B: RunCode>(
    alloc: Global,
    prepared: &Prepared,
    throttle: u32,
    before: &Accesses,
) -> Result<(HallOf<Carried<B>>, HallKey<Carried<B>>), NoMemory>
    requires code_of { IsCodeOf (tree_of prepared.now.checked.now) prepared.now.code.now }
    requires accepted { BreaksNoRule (tree_of prepared.now.checked.now) }
    requires code { prepared.now.code.now ≡ B.code }
    requires throttle { 0 < throttle }
    ensures hall { IfOk result (λ opened. IsOpenedFor (tree_of prepared.now.checked.now) prepared.now.input.now throttle before.now
        opened.0) }
    ensures key { IfOk result (λ opened. opened.1.hall ≡ opened.0.hall) }
    ensures drives { IfOk result (λ opened. CanDrive B.code (hall_name opened.0.hall) prepared.now.code.now prepared.now.input.now) }
{
    let _count = prepared.checked.cell_count();
    let capacity = most_elements(prepared.code.limits());
    let (orders, mut passes) = orders(alloc, capacity)?;
    let payloads = payloads::<B>(alloc, prepared.code, &mut passes, throttle)?;
    let program = prepared.checked.program();
    let book = Book::new(alloc, program, prepared.input, throttle, payloads, orders)?;
    hall_after(alloc, book, prepared.checked, before, passes)
}
