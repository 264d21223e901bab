//! Laws of tokens and of lexical faults.

ghost use Rattle.grammar_laws.specs.TokenLaws.{SourcesHaveOneListOfTokens, SourcesHaveOneFault, SourcesWithTokensHaveNoFault};
ghost use Rattle.grammar_laws.specs.TokenLaws.{TokensAreInTheirSource};

/// A source has at most one list of tokens, with their kinds, offsets and lengths.
pub fn sources_have_one_list_of_tokens()
    ensures { SourcesHaveOneListOfTokens }
{}

/// A source has at most one lexical fault.
pub fn sources_have_one_fault()
    ensures { SourcesHaveOneFault }
{}

/// A source with tokens within the bounds has no fault.
pub fn sources_with_tokens_have_no_fault()
    ensures { SourcesWithTokensHaveNoFault }
{}

/// Each token of a source is in it, and its text there is the text of its symbol.
pub fn tokens_are_in_their_source()
    ensures { TokensAreInTheirSource }
{}
