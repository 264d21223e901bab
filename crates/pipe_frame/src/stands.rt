//! Payloads of tokens.

/// What a payload is ready to run. It has no calls: contracts see which programs a payload can
/// run, at the start of which instance it is, and which order lists and seat it belongs to.
pub trait Stands {
    ghost use Rattle.std.specs.Prelude.{ℕ, ℤ, List};
    ghost use Rattle.pipe_model.specs.Language.SyntaxTree.{SyntaxTree};
    ghost use Rattle.pipe_frame.specs.Ties.{Tie};

    /// Whether it can run the instances of a program.
    ghost whole: { SyntaxTree → Self → Type 0 };

    /// Whether it is, for a program and an input, at the start of the instance of an iteration that
    /// comes after instances with these replies to their reads.
    ghost ready_at: { SyntaxTree → List ℤ → Self → ℕ → List (List ℤ) → Type 0 };

    /// The order lists and the seat that it belongs to.
    ghost tie: { Self → Tie };

    /// A payload at the start of an instance can run its program.
    ghost ready_whole: { (tree : SyntaxTree) (input : List ℤ) (x : Self) (i : ℕ) (replies : List (List ℤ))
        → ready_at tree input x i replies → whole tree x };
}
