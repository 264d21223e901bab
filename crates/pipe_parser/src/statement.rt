//! Statements and blocks from symbols.

ghost use Rattle.std.specs.Prelude.{◌≡◌, ◌<◌, ◌≤◌, [], ◌∷◌, IfOk, IfErr, length};
ghost use Rattle.pipe_model.specs.declared.sign_bytes.TheConstants as signs;
ghost use Rattle.grammar_laws.specs.ProgramMachine as machine;
ghost use Rattle.grammar_laws.specs.ProgramMachine.{Sign, FullExpression, Target, Part};
ghost use Rattle.pipe_model.specs.Language.SyntaxTree.{expression_of, statement_of, statements_of};
ghost use Rattle.grammar_laws.specs.Reading.{ReadsFull, ReadsStatement, ReadsBlock, ReadsPart, NoSign};
ghost use Rattle.pipe_model.specs.Language.Words.{word_let, word_emit, word_if, word_while};
ghost use Rattle.pipe_model.specs.declared.symbol.Symbol.TheVariants as terminals;
ghost use Rattle.pipe_model.specs.declared.bounds.TheConstants as bounds;
ghost use Rattle.pipe_parser.specs.StatementReadings.{test, binding, element, stage, block, repetition, choice, ReadsTest, ReadsStage};
ghost use Rattle.pipe_parser.specs.SyntaxFaults.{SyntaxStops};

use crate::expression::{Read, expect_sign};
use crate::fault::SyntaxFault;
use crate::full_expression::read_full;
use crate::symbols::Symbols;
use pipe_model::name::Name;
use pipe_model::token::TokenKind;
use pipe_model::tree::{Block, Expr, Stmt};
use pipe_model::word_codes::{ELSE, EMIT, IF, LET, PIPE_CONTINUE, PIPE_WAIT, WHILE};
use std::alloc::{AllocError, Global};

// Reads a full expression and the sign that closes it.
fn read_until<'a>(alloc: Global, sign: u8, symbols: &Symbols<'a>) -> Read<'a, Expr>
    ensures ok { IfOk result (λ r. ReadsFull bounds.LONGEST_EXPRESSION symbols.now (expression_of r.0) (terminals.Sign sign ∷ r.1)) }
    ensures err { IfErr result (λ fault. SyntaxStops (FullExpression ∷ Sign sign ∷ []) symbols.now fault) }
    ensures shorter { IfOk result (λ r. length r.1 < length symbols.now) }
{
    let (e, rest) = read_full(alloc, symbols)?;
    let rest = expect_sign(&rest, sign)?;
    Ok((e, rest))
}

/// Reads a test in round brackets.
pub fn read_test<'a>(alloc: Global, symbols: &Symbols<'a>) -> Read<'a, Expr>
    ensures ok { IfOk result (λ r. ReadsTest symbols.now (expression_of r.0) r.1) }
    ensures err { IfErr result (λ fault. SyntaxStops test symbols.now fault) }
    ensures shorter { IfOk result (λ r. length r.1 < length symbols.now) }
{
    let inside = expect_sign(symbols, b'(')?;
    let (e, rest) = read_until(alloc, b')', &inside)?;
    Ok((e, rest))
}

// Reads a `let`, after its word.
fn read_let<'a>(alloc: Global, symbols: &Symbols<'a>) -> Read<'a, Stmt>
    ensures ok { IfOk result (λ r. ReadsStatement bounds.LONGEST_EXPRESSION (word_let ∷ symbols.now) (statement_of r.0) r.1) }
    ensures err { IfErr result (λ fault. SyntaxStops binding symbols.now fault) }
    ensures shorter { IfOk result (λ r. length r.1 < length symbols.now) }
{
    let Some((name, following)) = symbols.after_name() else {
        return Err(SyntaxFault::Unexpected(symbols.len()));
    };
    let rest = expect_sign(&following, b'=')?;
    let (e, rest) = read_until(alloc, b';', &rest)?;
    let name = Name::new(alloc, name)?;
    Ok((Stmt::Let(name, e), rest))
}

// Reads an assignment to an element, after its opening bracket.
fn read_element<'a>(alloc: Global, name: &[u8], symbols: &Symbols<'a>) -> Read<'a, Stmt>
    ensures ok { IfOk result (λ r. ReadsStatement bounds.LONGEST_EXPRESSION
        (terminals.Name name.now ∷ terminals.Sign signs.OPEN_SQUARE ∷ symbols.now) (statement_of r.0) r.1) }
    ensures err { IfErr result (λ fault. SyntaxStops element symbols.now fault) }
    ensures shorter { IfOk result (λ r. length r.1 < length symbols.now) }
{
    let (index, rest) = read_until(alloc, b']', symbols)?;
    let rest = expect_sign(&rest, b'=')?;
    let (e, rest) = read_until(alloc, b';', &rest)?;
    let name = Name::new(alloc, name)?;
    Ok((Stmt::AssignElement(name, index, e), rest))
}

// Reads an assignment, after its name.
fn read_assignment<'a>(alloc: Global, name: &[u8], symbols: &Symbols<'a>) -> Read<'a, Stmt>
    ensures ok { IfOk result (λ r. ReadsStatement bounds.LONGEST_EXPRESSION (terminals.Name name.now ∷ symbols.now)
        (statement_of r.0) r.1) }
    ensures err { IfErr result (λ fault. SyntaxStops (Target ∷ []) symbols.now fault) }
    ensures shorter { IfOk result (λ r. length r.1 < length symbols.now) }
{
    if let Some(inside) = symbols.after_sign(b'[') {
        return read_element(alloc, name, &inside);
    }
    let Some(following) = symbols.after_sign(b'=') else {
        return Err(SyntaxFault::Unexpected(symbols.len()));
    };
    let (e, rest) = read_until(alloc, b';', &following)?;
    let name = Name::new(alloc, name)?;
    Ok((Stmt::Assign(name, e), rest))
}

// Reads an `emit`, after its word.
fn read_emit<'a>(alloc: Global, symbols: &Symbols<'a>) -> Read<'a, Stmt>
    ensures ok { IfOk result (λ r. ReadsStatement bounds.LONGEST_EXPRESSION (word_emit ∷ symbols.now) (statement_of r.0) r.1) }
    ensures err { IfErr result (λ fault. SyntaxStops (FullExpression ∷ Sign signs.SEMICOLON ∷ []) symbols.now fault) }
    ensures shorter { IfOk result (λ r. length r.1 < length symbols.now) }
{
    let (e, rest) = read_until(alloc, b';', symbols)?;
    Ok((Stmt::Emit(e), rest))
}

// Reads the brackets of a stage statement, with or without a stage number, and the semicolon after
// them.
fn read_stage<'a>(alloc: Global, symbols: &Symbols<'a>) -> Read<'a, Option<Expr>>
    ensures ok { IfOk result (λ r. ReadsStage symbols.now r.0 r.1) }
    ensures err { IfErr result (λ fault. SyntaxStops stage symbols.now fault) }
    ensures shorter { IfOk result (λ r. length r.1 < length symbols.now) }
{
    let inside = expect_sign(symbols, b'(')?;
    if let Some(following) = inside.after_sign(b')') {
        let rest = expect_sign(&following, b';')?;
        return Ok((None, rest));
    }
    let (e, following) = read_until(alloc, b')', &inside)?;
    let rest = expect_sign(&following, b';')?;
    Ok((Some(e), rest))
}

// Reads a statement; the block does not end here.
#[cycle(block)]
fn read_statement<'a>(alloc: Global, symbols: &Symbols<'a>) -> Read<'a, Stmt>
    requires { NoSign signs.CLOSE_BRACE symbols.now }
    ensures ok { IfOk result (λ r. ReadsStatement bounds.LONGEST_EXPRESSION symbols.now (statement_of r.0) r.1) }
    ensures err { IfErr result (λ fault. SyntaxStops (machine.Statements ∷ Sign signs.CLOSE_BRACE ∷ []) symbols.now fault) }
    ensures shorter { IfOk result (λ r. length r.1 < length symbols.now) }
{
    let Some(first) = symbols.first() else {
        return Err(SyntaxFault::Unexpected(0));
    };
    match first.kind {
        TokenKind::Name => read_assignment(alloc, first.text, &first.following),
        TokenKind::Word(PIPE_WAIT) => {
            let (number, rest) = read_stage(alloc, &first.following)?;
            Ok((Stmt::Wait(number), rest))
        }
        TokenKind::Word(PIPE_CONTINUE) => {
            let (number, rest) = read_stage(alloc, &first.following)?;
            Ok((Stmt::Continue(number), rest))
        }
        TokenKind::Word(LET) => read_let(alloc, &first.following),
        TokenKind::Word(IF) => read_if(alloc, &first.following),
        TokenKind::Word(WHILE) => read_while(alloc, &first.following),
        TokenKind::Word(EMIT) => read_emit(alloc, &first.following),
        _ => Err(SyntaxFault::Unexpected(symbols.len())),
    }
}

// Reads an `if`, after its word.
#[cycle(block)]
fn read_if<'a>(alloc: Global, symbols: &Symbols<'a>) -> Read<'a, Stmt>
    ensures ok { IfOk result (λ r. ReadsStatement bounds.LONGEST_EXPRESSION (word_if ∷ symbols.now) (statement_of r.0) r.1) }
    ensures err { IfErr result (λ fault. SyntaxStops choice symbols.now fault) }
    ensures shorter { IfOk result (λ r. length r.1 < length symbols.now) }
{
    let (e, rest) = read_test(alloc, symbols)?;
    let (then, rest) = read_block(alloc, &rest)?;
    let (other, rest) = read_part(alloc, ELSE, rest)?;
    Ok((Stmt::If(e, then, other), rest))
}

// Reads a `while`, after its word.
#[cycle(block)]
fn read_while<'a>(alloc: Global, symbols: &Symbols<'a>) -> Read<'a, Stmt>
    ensures ok { IfOk result (λ r. ReadsStatement bounds.LONGEST_EXPRESSION (word_while ∷ symbols.now) (statement_of r.0) r.1) }
    ensures err { IfErr result (λ fault. SyntaxStops repetition symbols.now fault) }
    ensures shorter { IfOk result (λ r. length r.1 < length symbols.now) }
{
    let (e, rest) = read_test(alloc, symbols)?;
    let (body, rest) = read_block(alloc, &rest)?;
    Ok((Stmt::While(e, body), rest))
}

/// Reads a part that may be missing: a word and a block. If it is missing, the result is the empty
/// block.
#[cycle(block)]
pub fn read_part<'a>(alloc: Global, word: u8, symbols: Symbols<'a>) -> Read<'a, Block>
    ensures ok { IfOk result (λ r. ReadsPart bounds.LONGEST_EXPRESSION word symbols.entry (statements_of r.0.statements.items) r.1) }
    ensures err { IfErr result (λ fault. SyntaxStops (Part word ∷ []) symbols.entry fault) }
    ensures shorter { IfOk result (λ r. length r.1 ≤ length symbols.entry) }
{
    match symbols.after_word(word) {
        Some(following) => read_block(alloc, &following),
        None => Ok((
            Block {
                statements: Vec::new(alloc),
            },
            symbols,
        )),
    }
}

/// Reads a block, from its opening to its closing brace.
#[cycle(block)]
pub fn read_block<'a>(alloc: Global, symbols: &Symbols<'a>) -> Read<'a, Block>
    ensures ok { IfOk result (λ r. ReadsBlock bounds.LONGEST_EXPRESSION symbols.now (statements_of r.0.statements.items) r.1) }
    ensures err { IfErr result (λ fault. SyntaxStops block symbols.now fault) }
    ensures shorter { IfOk result (λ r. length r.1 < length symbols.now) }
{
    let mut rest = expect_sign(symbols, b'{')?;
    let mut statements = Vec::new(alloc);
    loop {
        if let Some(following) = rest.after_sign(b'}') {
            return Ok((Block { statements }, following));
        }
        let (statement, following) = read_statement(alloc, &rest)?;
        statements.push(statement).map_err(AllocError::from)?;
        rest = following;
    }
}
