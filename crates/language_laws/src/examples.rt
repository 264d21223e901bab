//! A worked example, which the checker computes from the definitions.

ghost use Rattle.language_laws.specs.LanguageExamples.{LetIsSpelled};

/// A line of source, its symbols and its statement.
pub fn let_is_spelled()
    ensures { LetIsSpelled }
{}
