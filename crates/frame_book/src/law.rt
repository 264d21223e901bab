//! The law of tokens. The function has an empty body, and its contract is the law.

ghost use Rattle.frame_book.specs.TokenLaws.{TokensStayUntilTheirEnds};

/// A token of a running instance stays one while other instances start and end.
pub fn tokens_stay_until_their_ends()
    ensures { TokensStayUntilTheirEnds }
{}
