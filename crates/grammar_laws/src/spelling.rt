//! Laws of spelling, by symbols and by sources.

ghost use Rattle.grammar_laws.specs.SpellingLaws.{SymbolsSpellOneProgram, SourcesSpellOneProgram, SymbolsHaveOneFirstFault};
ghost use Rattle.grammar_laws.specs.SpellingLaws.{ProgramsHaveNoFault};

/// Symbols spell at most one program.
pub fn symbols_spell_one_program()
    ensures { SymbolsSpellOneProgram }
{}

/// A source spells at most one program.
pub fn sources_spell_one_program()
    ensures { SourcesSpellOneProgram }
{}

/// Symbols have at most one first fault, and none if they spell a program.
pub fn symbols_have_one_first_fault()
    ensures one { SymbolsHaveOneFirstFault }
    ensures none { ProgramsHaveNoFault }
{}
