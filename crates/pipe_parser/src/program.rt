//! Limits, cells and whole programs from symbols.

ghost use Rattle.std.specs.Prelude.{◌≡◌, ◌<◌, [], ◌∷◌, IfOk, IfErr, length};
ghost use Rattle.grammar_laws.specs.ProgramMachine.{Sign, Word, AnyNumber, Cells, Size, Value};
ghost use Rattle.pipe_model.specs.Language.SyntaxTree.{expression_of, statements_of, tree_of};
ghost use Rattle.grammar_laws.specs.Reading.{ReadsSize, ReadsValue, ReadsCell, ReadsCells, ReadsProgram};
ghost use Rattle.pipe_model.specs.declared.symbol.Symbol.TheVariants as terminals;
ghost use Rattle.pipe_model.specs.declared.bounds.TheConstants as bounds;
ghost use Rattle.pipe_parser.specs.ProgramReadings.{limit, limits, cell, loop, HasLimits, ReadsLoop};
ghost use Rattle.pipe_parser.specs.SyntaxFaults.{SyntaxStops, Refuses};

use crate::expression::{Read, expect_sign};
use crate::fault::SyntaxFault;
use crate::statement::{read_block, read_part, read_test};
use crate::symbols::Symbols;
use pipe_model::name::Name;
use pipe_model::operator_codes::MINUS;
use pipe_model::tree::{Block, Declaration, Declarations, Expr, Limits, Program};
use pipe_model::word_codes::{
    CELL, EMITS, FINAL, INIT, ITERATIONS, LIMITS, PIPE_WHILE, STAGES, STEPS,
};
use std::alloc::{AllocError, Global};

// Returns the symbols after a word that has to come first.
fn expect_word<'a>(symbols: &Symbols<'a>, word: u8) -> Result<Symbols<'a>, SyntaxFault>
    ensures ok { IfOk result (λ following. symbols.now ≡ terminals.Word word ∷ following) }
    ensures err { IfErr result (λ fault. SyntaxStops (Word word ∷ []) symbols.now fault) }
{
    match symbols.after_word(word) {
        Some(following) => Ok(following),
        None => Err(SyntaxFault::Unexpected(symbols.len())),
    }
}

// Returns the number that has to come first, and the symbols after it.
fn expect_number<'a>(symbols: &Symbols<'a>) -> Read<'a, i64>
    ensures ok { IfOk result (λ r. symbols.now ≡ terminals.Number r.0 ∷ r.1) }
    ensures err { IfErr result (λ fault. SyntaxStops (AnyNumber ∷ []) symbols.now fault) }
{
    match symbols.after_number() {
        Some((number, following)) => Ok((number, following)),
        None => Err(SyntaxFault::Unexpected(symbols.len())),
    }
}

// Reads a limit: its word, a number, and the sign after it.
fn read_limit<'a>(symbols: &Symbols<'a>, word: u8, sign: u8) -> Read<'a, i64>
    ensures ok { IfOk result (λ r. symbols.now ≡ terminals.Word word ∷ terminals.Number r.0 ∷ terminals.Sign sign ∷ r.1) }
    ensures err { IfErr result (λ fault. SyntaxStops (limit word sign) symbols.now fault) }
{
    let following = expect_word(symbols, word)?;
    let (number, rest) = expect_number(&following)?;
    let rest = expect_sign(&rest, sign)?;
    Ok((number, rest))
}

// Reads the line of limits.
fn read_limits<'a>(symbols: &Symbols<'a>) -> Read<'a, Limits>
    ensures ok { IfOk result (λ r. HasLimits symbols.now r.0 r.1) }
    ensures err { IfErr result (λ fault. SyntaxStops limits symbols.now fault) }
{
    let first = expect_word(symbols, LIMITS)?;
    let (iterations, second) = read_limit(&first, ITERATIONS, b',')?;
    let (stages, third) = read_limit(&second, STAGES, b',')?;
    let (steps, fourth) = read_limit(&third, STEPS, b',')?;
    let (emits, rest) = read_limit(&fourth, EMITS, b';')?;
    Ok((
        Limits {
            iterations,
            stages,
            steps,
            emits,
        },
        rest,
    ))
}

// Reads the size of an array, which may be missing.
fn read_size<'a>(symbols: Symbols<'a>) -> Read<'a, Option<i64>>
    ensures ok { IfOk result (λ r. ReadsSize symbols.entry r.0 r.1) }
    ensures err { IfErr result (λ fault. SyntaxStops (Size ∷ []) symbols.entry fault) }
{
    let Some(inside) = symbols.after_sign(b'[') else {
        return Ok((None, symbols));
    };
    let (size, following) = expect_number(&inside)?;
    let rest = expect_sign(&following, b']')?;
    Ok((Some(size), rest))
}

// Reads a declared value: a number, which may have a `-` before it.
fn read_value<'a>(symbols: &Symbols<'a>) -> Read<'a, i64>
    ensures ok { IfOk result (λ r. ReadsValue symbols.now r.0 r.1) }
    ensures err { IfErr result (λ fault. SyntaxStops (Value ∷ []) symbols.now fault) }
{
    let Some(following) = symbols.after_operator(MINUS) else {
        return expect_number(symbols);
    };
    let Some((size, rest)) = following.after_number() else {
        return Err(SyntaxFault::Unexpected(following.len()));
    };
    if size < 0 {
        return Err(SyntaxFault::Unexpected(following.len()));
    }
    Ok((-size, rest))
}

// Reads the declaration of a cell, after its word.
fn read_cell<'a>(alloc: Global, symbols: &Symbols<'a>) -> Read<'a, Declaration>
    ensures ok { IfOk result (λ r. ReadsCell symbols.now r.0 r.1) }
    ensures err { IfErr result (λ fault. SyntaxStops cell symbols.now fault) }
    ensures shorter { IfOk result (λ r. length r.1 < length symbols.now) }
{
    let Some((name, first)) = symbols.after_name() else {
        return Err(SyntaxFault::Unexpected(symbols.len()));
    };
    let (size, second) = read_size(first)?;
    let third = expect_sign(&second, b'=')?;
    let (value, fourth) = read_value(&third)?;
    let rest = expect_sign(&fourth, b';')?;
    let name = Name::new(alloc, name)?;
    Ok((Declaration { name, size, value }, rest))
}

// Reads declarations, as long as their word comes first.
fn read_cells<'a>(alloc: Global, symbols: Symbols<'a>) -> Read<'a, Declarations>
    ensures ok { IfOk result (λ r. ReadsCells symbols.entry r.0 r.1) }
    ensures err { IfErr result (λ fault. SyntaxStops (Cells ∷ []) symbols.entry fault) }
{
    let mut cells = Declarations::new(alloc);
    let mut rest = symbols;
    while let Some(declared) = rest.after_word(CELL) {
        let (cell, following) = read_cell(alloc, &declared)?;
        cells.push(cell).map_err(AllocError::from)?;
        rest = following;
    }
    Ok((cells, rest))
}

// Reads the loop: its word, its test and its body.
fn read_loop<'a>(
    alloc: Global,
    symbols: &Symbols<'a>,
) -> Result<(Expr, Block, Symbols<'a>), SyntaxFault>
    ensures ok { IfOk result (λ r. ReadsLoop symbols.now (expression_of r.0) (statements_of r.1.statements.items) r.2) }
    ensures err { IfErr result (λ fault. SyntaxStops loop symbols.now fault) }
{
    let following = expect_word(symbols, PIPE_WHILE)?;
    let (test, inside) = read_test(alloc, &following)?;
    let (body, rest) = read_block(alloc, &inside)?;
    Ok((test, body, rest))
}

/// Reads a program from all of the symbols, without a bound on open brackets. Returns an error if
/// a symbol breaks a rule, if the symbols end too early, or if memory runs out.
pub fn read_program(alloc: Global, symbols: &Symbols) -> Result<Program, SyntaxFault>
    ensures ok { IfOk result (λ program. ReadsProgram bounds.LONGEST_EXPRESSION symbols.now (tree_of program)) }
    ensures err { IfErr result (λ fault. Refuses symbols.now fault) }
{
    let (limits, first) = read_limits(symbols)?;
    let (cells, second) = read_cells(alloc, first)?;
    let (init, third) = read_part(alloc, INIT, second)?;
    let (test, body, fourth) = read_loop(alloc, &third)?;
    let (last, rest) = read_part(alloc, FINAL, fourth)?;
    if 0 < rest.len() {
        return Err(SyntaxFault::Unexpected(rest.len()));
    }
    Ok(Program {
        limits,
        cells,
        init,
        test,
        body,
        last,
    })
}
