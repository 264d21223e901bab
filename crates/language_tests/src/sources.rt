//! Sources that are to be accepted.

ghost use Rattle.std.specs.Prelude.{◌≡◌, IfSome, None};
ghost use Rattle.pipe_model.specs.Language.CheckingRules.{fault_of};
ghost use Rattle.pipe_model.specs.Language.SyntaxTree.{tree_of};

use pipe_check::checked::Checked;
use pipe_check::program::check;
use pipe_lexer::scan::tokens;
use pipe_parser::parse::{Parsed, parse};
use std::alloc::Global;

/// Returns the program of a source, or nothing if the source is refused or memory runs out.
pub fn accepted(alloc: Global, source: &[u8]) -> Option<Checked>
    ensures { IfSome result (λ checked. fault_of (tree_of checked) ≡ None) }
{
    let Ok(tokens) = tokens(alloc, source) else {
        return None;
    };
    let Ok(parsed) = parse(alloc, source, &tokens) else {
        drop(tokens);
        return None;
    };
    drop(tokens);
    let Parsed { program, places } = parsed;
    drop(places);
    let Ok(checked) = check(alloc, program) else {
        return None;
    };
    Some(checked)
}
