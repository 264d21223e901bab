//! Properties of every program that a source spells.

ghost use Rattle.language_laws.specs.SpellableLaws.{SpelledProgramsAreSpellable};

/// A program that a source spells has only known operators, at most 256 nodes in each full expression,
/// and no negative size or limit of emitted numbers, and its size is within the bound on spellable
/// programs. So it can be given to `check`.
pub fn spelled_programs_are_spellable()
    ensures { SpelledProgramsAreSpellable }
{}
