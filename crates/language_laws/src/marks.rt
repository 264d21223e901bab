//! The marks of a program, and the tokens of its source.

ghost use Rattle.language_laws.specs.MarkLaws.{MarksAreThoseOfTokens, MarksOccurAsTokens};

/// If a source spells a program, its marked tokens are the marks of the program, one by one, and
/// each mark has the offset of its token.
pub fn marks_are_those_of_tokens()
    ensures as_many { MarksAreThoseOfTokens }
    ensures one_by_one { MarksOccurAsTokens }
{}
