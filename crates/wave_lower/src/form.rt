//! The form of a wave loop: its test, and the first statement of its body.

ghost use Rattle.std.specs.Prelude.{◌≡◌};
ghost use Rattle.std.specs.Str.{bytes_eq};
ghost use Rattle.pipe_model.specs.Language.SyntaxTree.{expression_of, statement_of, statements_of};
ghost use Rattle.wave_laws.specs.Waves.WaveFaults.{begins_with_row, declares_row, is_number};
ghost use Rattle.wave_laws.specs.Waves.WaveLoops.{row};

use pipe_model::name::Name;
use pipe_model::tree::{Expr, Stmt};

/// The name of the local that is the row.
pub const ROW: [u8; 3] = *b"row";

/// Returns whether the name is the name of the row.
pub fn is_row(name: &Name) -> bool
    ensures { result ≡ bytes_eq row name.now }
{
    ROW.as_slice() == name.as_bytes()
}

/// Returns whether the expression is this number.
pub fn is_number(number: i64, e: &Expr) -> bool
    ensures { result ≡ is_number number (expression_of e.now) }
{
    match e {
        Expr::Number(n) => *n == number,
        _ => false,
    }
}

// Returns whether the statement is `let row = 0;`.
fn declares_row(s: &Stmt) -> bool
    ensures { result ≡ declares_row (statement_of s.now) }
{
    match s {
        Stmt::Let(name, e) => is_row(name) && is_number(0, e),
        _ => false,
    }
}

/// Returns whether the body of a loop begins with `let row = 0;`.
pub fn begins_with_row(statements: &[Stmt]) -> bool
    ensures { result ≡ begins_with_row (statements_of statements.now) }
{
    match statements.first() {
        Some(s) => declares_row(s),
        None => false,
    }
}
