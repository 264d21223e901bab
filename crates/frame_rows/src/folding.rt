//! Whether an iteration that names a stage goes on at once, by the left counter that its token
//! keeps.

ghost use Rattle.std.specs.Prelude.{◌≡◌, ◌↔◌, ◌<◌, ◌≤◌, ◌-◌, zero, length, IsTrue, cond, Some, None};
ghost use Rattle.dep_fold.specs.Folding.{FoldedPasses};
ghost use Rattle.pipe_frame.specs.LeftCounters.{must_read_left};
ghost use Rattle.frame_rows.specs.IterationRows.{left_row_counter, WaitsAt};
ghost use Rattle.frame_rows.specs.NamedStages.{stage_end};

use crate::row::Iteration;
use dep_fold::folded::Folded;
use pipe_model::node::Kind;

/// Returns whether the left counter must be read to decide whether the iteration may enter a stage.
pub fn needs_left(folded: &Folded, kind: Kind, iteration: u32, number: i64) -> bool
    ensures { result ≡ must_read_left iteration folded.now (stage_end kind number) }
{
    if iteration == 0 {
        return false;
    }
    match kind {
        Kind::Wait => !folded.passes(number),
        Kind::Zero => false,
        Kind::Continue => false,
    }
}

/// Keeps the left counter, if it must be read.
pub fn fold_left<M>(rows: &[Iteration<M>], iteration: u32, read: bool, folded: &mut Folded)
    requires within { iteration ≤ length rows.now }
    requires left { IsTrue read → 0 < iteration }
    ensures { folded.new ≡ cond read (left_row_counter rows.now iteration) folded.old }
{
    if read {
        let place = iteration as usize - 1;
        let left = &rows[place];
        folded.learn(left.counter());
    }
}

/// Returns whether the iteration may enter a stage, by the kept counter.
pub fn lets_enter(folded: &Folded, kind: Kind, iteration: u32, number: i64) -> bool
    ensures { IsTrue result ↔ (WaitsAt kind iteration → FoldedPasses folded.now number) }
{
    if iteration == 0 {
        return true;
    }
    match kind {
        Kind::Wait => folded.passes(number),
        Kind::Zero => true,
        Kind::Continue => true,
    }
}

/// Returns 1 if the counter was read.
pub fn count_of(read: bool) -> u64
    ensures { result ≡ cond read 1 0 }
{
    if read { 1 } else { 0 }
}
