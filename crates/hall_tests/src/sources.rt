//! Sources, as programs with their code.

ghost use Rattle.std.specs.Prelude.{◌≡◌, ◌≤◌, ◌+◌, IfSome};
ghost use Rattle.hall_tests.specs.PreparedPrograms.{IsPrepared};
ghost use Rattle.pipe_worker.specs.Machines.{cells_of};
ghost use Rattle.pipe_model.specs.declared.bounds.TheConstants.{MOST_CELLS};
ghost use Rattle.pipe_model.specs.Language.CheckingRules.{BreaksNoRule, cell_total};
ghost use Rattle.pipe_model.specs.Language.SyntaxTree.{tree_of};

use pipe_check::checked::Checked;
use pipe_check::program::check;
use pipe_lexer::scan::tokens;
use pipe_model::list::Numbers;
use pipe_parser::parse::parse;
use stage_code::code::Code;
use stage_code::lower::lower;
use std::alloc::Global;

/// Counts in stage 0, and adds up in stage 1, which waits. Cell 2 is `n`.
pub const PREFIX_SUMS: &str = "limits iterations 8, stages 4, steps 100, emits 8; \
    cell n = 0; cell s = 0; \
    pipe_while (n < 3) { n = n + 1; let t = n; pipe_wait(1); s = s + t; emit s; }";

/// Iterations 0 and 1 wait for no one. The first writes `f`, cell 3, in stage 1, and the second reads
/// it in stage 0, so these two accesses race. Nothing else does.
pub const RACING: &str = "limits iterations 2, stages 3, steps 50, emits 2; \
    cell n = 0; cell f = 0; cell c = 0; pipe_while (n < 2) { n = n + 1; if (iter() == 0) { \
    pipe_continue(1); f = 1; } else { if (f == 0) { pipe_continue(1); } pipe_continue(2); c = 1; } }";

/// 64 iterations over 33 declared cells, from 2 to 34. Stage 1 waits, so its accesses to `a`, cells 3 to
/// 18, are in order. Stage 2 does not: iterations with the same remainder race on their cell of
/// `b`, which is 19 and the remainder.
pub const MANY_CELLS: &str = "limits iterations 64, stages 3, steps 100, emits 0; \
    cell n = 0; cell a[16] = 0; cell b[16] = 0; pipe_while (n < 64) { n = n + 1; \
    pipe_wait(1); a[iter() % 16] = a[iter() % 16] + 1; pipe_continue(2); b[iter() % 16] = iter(); }";

/// A program that is accepted, with its code, and an input without numbers.
#[derive(Drop)]
pub struct Prepared {
    pub checked: Checked,
    pub code: Code,
    pub input: Numbers,
}

// Returns the program of a source, or nothing if the source is refused or memory runs out.
fn accepted(alloc: Global, source: &[u8]) -> Option<Checked>
    ensures { IfSome result (λ checked. BreaksNoRule (tree_of checked)) }
{
    let Ok(tokens) = tokens(alloc, source) else {
        return None;
    };
    let Ok(parsed) = parse(alloc, source, &tokens) else {
        return None;
    };
    let Ok(checked) = check(alloc, parsed.program) else {
        return None;
    };
    Some(checked)
}

// Returns an accepted program with its code.
fn with_code(alloc: Global, checked: Checked) -> Option<Prepared>
    requires { BreaksNoRule (tree_of checked) }
    ensures { IfSome result (λ prepared. IsPrepared (tree_of prepared.checked) prepared.code) }
{
    let Ok(code) = lower(alloc, &checked) else {
        drop(checked);
        return None;
    };
    Some(Prepared {
        checked,
        code,
        input: Numbers::new(alloc),
    })
}

/// Returns the program of a source with its code, or nothing if the source is refused or memory runs
/// out.
pub fn prepare(alloc: Global, source: &str) -> Option<Prepared>
    ensures { IfSome result (λ prepared. IsPrepared (tree_of prepared.checked) prepared.code) }
{
    let Some(checked) = accepted(alloc, source.as_bytes()) else {
        return None;
    };
    with_code(alloc, checked)
}

impl Prepared {
    /// Returns the number of cells of the program.
    pub fn cells(&self) -> u32
        ensures count { result ≡ cells_of (tree_of self.now.checked) }
        ensures all { cell_total (tree_of self.now.checked).cells + 2 ≤ result }
        ensures bounded { result ≤ MOST_CELLS + 2 }
    {
        self.checked.cell_count()
    }
}
