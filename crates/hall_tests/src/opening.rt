//! Halls of programs.

ghost use Rattle.std.specs.Prelude.{◌≡◌, ◌<◌, IfOk};
ghost use Rattle.hall_tests.specs.PreparedPrograms.{IsHallOf, IsPrepared};
ghost use Rattle.pipe_worker.specs.Machines.{CanDrive};
ghost use Rattle.hall_table.specs.WorkerSeats.{hall_name};
ghost use Rattle.pipe_model.specs.Language.SyntaxTree.{tree_of};

use crate::sources::Prepared;
use pipe_hall::hall::{HallKey, HallOf};
use pipe_model::access::Accesses;
use pipe_model::memory::NoMemory;
use program_hall::carried::{Carried, RunCode};
use program_hall::opening::open as open_prepared;
use serial_elision::prepared::Prepared as PreparedProgram;
use std::alloc::Global;

/// Returns a hall of a program, and the seat of its first worker. At most `throttle` iterations may be
/// alive. The cells are those after the accesses `before`. Returns an error only if memory runs out.
pub fn open<B: RunCode>(
    alloc: Global,
    prepared: &Prepared,
    throttle: u32,
    before: &Accesses,
) -> Result<(HallOf<Carried<B>>, HallKey<Carried<B>>), NoMemory>
    requires prepared { IsPrepared (tree_of prepared.now.checked) prepared.now.code }
    requires code { prepared.now.code ≡ B.code }
    requires throttle { 0 < throttle }
    ensures hall { IfOk result (λ opened. IsHallOf (hall_name opened.0.hall) (tree_of prepared.now.checked) prepared.now.input) }
    ensures key { IfOk result (λ opened. opened.1.hall ≡ opened.0.hall) }
    ensures drives { IfOk result (λ opened. CanDrive B.code (hall_name opened.0.hall) prepared.now.code prepared.now.input) }
{
    let program = PreparedProgram {
        checked: &prepared.checked,
        code: &prepared.code,
        input: &prepared.input,
    };
    open_prepared::<B>(alloc, &program, throttle, before)
}

/// Returns a hall of a program in which no access was made, and the seat of its first worker.
pub fn open_new<B: RunCode>(
    alloc: Global,
    prepared: &Prepared,
    throttle: u32,
) -> Result<(HallOf<Carried<B>>, HallKey<Carried<B>>), NoMemory>
    requires prepared { IsPrepared (tree_of prepared.now.checked) prepared.now.code }
    requires code { prepared.now.code ≡ B.code }
    requires throttle { 0 < throttle }
    ensures hall { IfOk result (λ opened. IsHallOf (hall_name opened.0.hall) (tree_of prepared.now.checked) prepared.now.input) }
    ensures key { IfOk result (λ opened. opened.1.hall ≡ opened.0.hall) }
    ensures drives { IfOk result (λ opened. CanDrive B.code (hall_name opened.0.hall) prepared.now.code prepared.now.input) }
{
    open::<B>(alloc, prepared, throttle, &Accesses::new(alloc))
}
