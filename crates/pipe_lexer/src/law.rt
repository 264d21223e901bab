//! The law that each source has a result. Its function has an empty body; its contract is the law.

ghost use Rattle.std.specs.Prelude.{ℕ, List};
ghost use Rattle.pipe_lexer.specs.LexingLaw.{IsLexedOrHasFault};

/// Each source has tokens within the bounds, or a fault. (Laws of the definitions show that it
/// never has both, and at most one of each.)
pub fn each_source_has_tokens_or_a_fault()
    ensures { (source : List ℕ) → IsLexedOrHasFault source }
{}
