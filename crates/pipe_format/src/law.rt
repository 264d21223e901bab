//! A law of the canonical text, and worked examples. Each function has an empty body, and its
//! contract is the law or the examples.

ghost use Rattle.std.specs.Prelude.{◌≡◌};
ghost use Rattle.pipe_format.specs.FormatExamples.{BlocksAreIndented, HaveTexts, bare_loop, bare_loop_text, brackets, operands, sums};
ghost use Rattle.pipe_format.specs.FormatExamples.{sums_text};
ghost use Rattle.pipe_format.specs.TextLaws.{ReadingsHaveTheSameText};
ghost use Rattle.pipe_model.specs.Language.CanonicalText.{program_text};

/// If some source spells a program and its text is not too long for a source, the program read from
/// the text has the same text.
pub fn readings_have_the_same_text()
    ensures { ReadingsHaveTheSameText }
{}

/// Round brackets are only where the tree needs them.
pub fn brackets_are_needed()
    ensures brackets { HaveTexts brackets }
    ensures operands { HaveTexts operands }
{}

/// The lines of a block are indented by two more spaces, and an empty `else` part is omitted.
pub fn blocks_are_indented()
    ensures { BlocksAreIndented }
{}

/// The texts of a loop alone, and of sums in a second stage.
pub fn programs_have_their_texts()
    ensures bare { program_text bare_loop ≡ bare_loop_text }
    ensures sums { program_text sums ≡ sums_text }
{}
