//! The rules of the table of operators. Each function has an empty body; its contract is the rule.

ghost use Rattle.std.specs.Prelude.{◌≡◌, All, map};
ghost use Rattle.pipe_model.specs.Language.Grammar.{level_of};
ghost use Rattle.pipe_model.specs.Language.Lexis.{operators};
ghost use Rattle.op_table.specs.Tables.{text_of};
ghost use Rattle.op_table.specs.Rules.{ObeysRules};

use crate::operators::OPS;

/// Symbols have one or two bytes and differ, levels are 1 to 6, and codes rise from 1.
pub fn operators_obey_the_rules()
    ensures { ObeysRules OPS.rows }
{}

/// The symbols are the operators of the language in the order of their codes, and each has the
/// level of its code.
pub fn operators_are_those_of_the_language()
    ensures symbols { map text_of OPS.rows ≡ operators }
    ensures levels { All (λ row. row.level ≡ level_of row.code) OPS.rows }
{}
