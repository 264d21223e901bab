//! The law that all symbols have a result. Its function has an empty body; its contract is the law.

ghost use Rattle.pipe_model.specs.declared.symbol.Symbol.{Symbol};
ghost use Rattle.pipe_parser.specs.ParsingLaw.{IsProgramOrFault};
ghost use Rattle.std.specs.Prelude.{List};

/// Symbols spell a program, or some symbol is the first that breaks a rule. (Laws of the
/// definitions show that they never do both, and that there is at most one program and one fault.)
pub fn symbols_are_a_program_or_have_a_fault()
    ensures { (symbols : List Symbol) → IsProgramOrFault symbols }
{}
