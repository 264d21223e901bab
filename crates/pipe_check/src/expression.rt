//! The marks of expressions.

ghost use Rattle.pipe_check.specs.Passing.{Fits, PassesMarks};
ghost use Rattle.pipe_model.specs.Language.Marks.{marks_of_expression};
ghost use Rattle.pipe_model.specs.Language.SyntaxTree.{expression_of};

use crate::fault::CheckFault;
use crate::scope::Scope;
use pipe_model::tree::Expr;

/// Checks the marks of an expression, numbered from `next`. Returns the number
/// after the last mark, or the first fault.
pub fn check_expression(scope: &Scope, next: u32, e: &Expr) -> Result<u32, CheckFault>
    requires fits { Fits next (marks_of_expression scope.now (expression_of e.now)) }
    ensures { PassesMarks result next (marks_of_expression scope.now (expression_of e.now)) }
{
    match e {
        Expr::Number(_) | Expr::More | Expr::Take => Ok(next),
        Expr::Name(name) => scope.check_plain(next, name),
        Expr::Element(name, i) => {
            let next = scope.check_indexed(next, name)?;
            check_expression(scope, next, i)
        }
        Expr::Binary(_, a, b) => {
            let next = check_expression(scope, next, a)?;
            check_expression(scope, next, b)
        }
        Expr::Unary(_, a) => check_expression(scope, next, a),
        Expr::Iter => scope.check_iter(next),
    }
}
