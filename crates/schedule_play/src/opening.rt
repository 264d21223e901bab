//! The book with which a play begins.

ghost use Rattle.std.specs.Prelude.{◌≡◌, ◌≤◌, ◌<◌, ◌+◌, ℕ, List, All, IfOk, None, length};
ghost use Rattle.frame_book.specs.NewBooks.{new_book};
ghost use Rattle.pipe_model.specs.Language.CheckingRules.{cell_total};
ghost use Rattle.pipe_model.specs.Language.CheckingRules.{BreaksNoRule};
ghost use Rattle.pipe_model.specs.Language.SyntaxTree.{tree_of};
ghost use Rattle.stage_interp.specs.MachineState.{IsMadeFor};
ghost use Rattle.stage_interp.specs.RemainingBehaviour.{IsCodeOf};
ghost use Rattle.schedule_play.specs.Openings.{AreNewOrders, no_lists};

use crate::insertion_log::InsertionLog;
use crate::runner::{PlayedCode, Runner};
use frame_book::book::Book;
use order_2d::two_orders::TwoOrders;
use pipe_check::checked::Checked;
use pipe_model::list::Numbers;
use pipe_model::memory::NoMemory;
use stage_code::code::Code;
use std::alloc::Global;

// Returns as many runners.
fn runners<B: PlayedCode>(
    alloc: Global,
    code: &Code,
    count: u32,
) -> Result<Vec<Runner<B>>, NoMemory>
    requires code { code.now ≡ B.code }
    ensures count { IfOk result (λ runners. length runners.items ≡ count) }
    ensures made { IfOk result (λ runners. All (λ r. IsMadeFor B.code r.machine) runners.items) }
{
    let mut runners = Vec::new(alloc);
    for _ in 0..count {
        runners.reserve(1)?;
        let runner = Runner::new(alloc, code)?;
        runners.push_reserved(runner);
    }
    Ok(runners)
}

// The elements of an order list of a run: the first, and two for each instance, of which there are at
// most 262,145.
const MOST_ELEMENTS: u32 = 524_291;

// Returns two order lists with room for each run, of which the elements are counted alone.
fn orders() -> TwoOrders<InsertionLog>
    ensures { AreNewOrders result }
{
    TwoOrders::new(
        InsertionLog::new(MOST_ELEMENTS),
        InsertionLog::new(MOST_ELEMENTS),
    )
}

/// Returns the book of a program and its input without events. At most `throttle` iterations may be
/// alive. Returns an error only if memory runs out.
pub(crate) fn open_book<B: PlayedCode>(
    alloc: Global,
    checked: &Checked,
    code: &Code,
    input: &Numbers,
    throttle: u32,
) -> Result<Book<Runner<B>, InsertionLog>, NoMemory>
    requires code { code.now ≡ B.code }
    requires code_of { IsCodeOf (tree_of checked.now) code.now }
    requires served { cell_total (tree_of checked.now).cells + 2 ≤ B.cells }
    requires accepted { BreaksNoRule (tree_of checked.now) }
    requires throttle { 0 < throttle }
    ensures tree { IfOk result (λ book. tree_of book.program ≡ tree_of checked.now) }
    ensures book { IfOk result (λ book. book ≡ new_book book.program input.now throttle no_lists) }
{
    let orders = orders();
    match runners(alloc, code, throttle) {
        Ok(runners) => Book::new(alloc, checked.program(), input, throttle, runners, orders),
        Err(refused) => {
            drop(orders);
            Err(refused)
        }
    }
}
