//! The text of statements.

ghost use Rattle.std.specs.Prelude.{◌≡◌, ◌+◌, ◌++◌, codes, OnOk, replicate};
ghost use Rattle.pipe_model.specs.Language.CanonicalText.{expression_text, line, stage_word, statement_text, statements_text};
ghost use Rattle.pipe_model.specs.Language.SyntaxTree.{Assign, AssignElement, Let, expression_of, stage_statement, statement_of};
ghost use Rattle.pipe_model.specs.Language.SyntaxTree.{statements_of};

use crate::expression::{push_element, push_expression};
use crate::text::{push_indented, push_line};
use pipe_model::memory::NoMemory;
use pipe_model::name::Name;
use pipe_model::tree::{Block, Expr, StageKind, Stmt};

/// Appends `indent` spaces, then the expression between the bytes `before` and `after`. Returns an
/// error only if memory runs out.
pub fn push_between(
    text: &mut Vec<u8>,
    indent: usize,
    before: &[u8],
    e: &Expr,
    after: &[u8],
) -> Result<(), NoMemory>
    ensures { OnOk result (text.new.items
        ≡ text.old.items ++ (replicate indent 32 ++ (before.now ++ (expression_text (expression_of e.now) ++ after.now)))) }
{
    push_indented(text, indent, before)?;
    push_expression(text, e)?;
    text.extend_from_slice(after)?;
    Ok(())
}

fn push_let(text: &mut Vec<u8>, indent: usize, name: &Name, e: &Expr) -> Result<(), NoMemory>
    ensures { OnOk result (text.new.items
        ≡ text.old.items ++ statement_text indent (Let name.now (expression_of e.now))) }
{
    push_indented(text, indent, b"let ")?;
    text.extend_from_slice(name.as_bytes())?;
    push_between(text, 0, b" = ", e, b";\n")
}

fn push_assign(text: &mut Vec<u8>, indent: usize, name: &Name, e: &Expr) -> Result<(), NoMemory>
    ensures { OnOk result (text.new.items
        ≡ text.old.items ++ statement_text indent (Assign name.now (expression_of e.now))) }
{
    push_indented(text, indent, name.as_bytes())?;
    push_between(text, 0, b" = ", e, b";\n")
}

fn push_assign_element(
    text: &mut Vec<u8>,
    indent: usize,
    name: &Name,
    index: &Expr,
    e: &Expr,
) -> Result<(), NoMemory>
    ensures { OnOk result (text.new.items
        ≡ text.old.items ++ statement_text indent (AssignElement name.now (expression_of index.now) (expression_of e.now))) }
{
    push_indented(text, indent, b"")?;
    push_element(text, name, index)?;
    push_between(text, 0, b" = ", e, b";\n")
}

fn stage_word(kind: StageKind) -> &'static [u8]
    ensures { result.now ≡ stage_word kind }
{
    match kind {
        StageKind::Wait => b"pipe_wait",
        StageKind::Continue => b"pipe_continue",
    }
}

fn push_stage(
    text: &mut Vec<u8>,
    indent: usize,
    kind: StageKind,
    number: &Option<Expr>,
) -> Result<(), NoMemory>
    ensures { OnOk result (text.new.items ≡ text.old.items ++ statement_text indent (stage_statement kind number.now)) }
{
    push_indented(text, indent, stage_word(kind))?;
    match number {
        Some(e) => push_between(text, 0, b"(", e, b");\n"),
        None => Ok(text.extend_from_slice(b"();\n")?),
    }
}

// Appends the lines of a statement, each after `indent` spaces.
#[cycle(block)]
fn push_statement(text: &mut Vec<u8>, indent: usize, s: &Stmt) -> Result<(), NoMemory>
    ensures { OnOk result (text.new.items ≡ text.old.items ++ statement_text indent (statement_of s.now)) }
{
    match s {
        Stmt::Let(name, e) => push_let(text, indent, name, e),
        Stmt::Assign(name, e) => push_assign(text, indent, name, e),
        Stmt::AssignElement(name, i, e) => push_assign_element(text, indent, name, i, e),
        Stmt::Emit(e) => push_between(text, indent, b"emit ", e, b";\n"),
        Stmt::If(test, then, other) => {
            push_between(text, indent, b"if (", test, b") {\n")?;
            push_block(text, indent, then)?;
            if !other.statements.is_empty() {
                push_line(text, indent, b"} else {")?;
                push_block(text, indent, other)?;
            }
            push_line(text, indent, b"}")
        }
        Stmt::While(test, body) => {
            push_between(text, indent, b"while (", test, b") {\n")?;
            push_block(text, indent, body)?;
            push_line(text, indent, b"}")
        }
        Stmt::Wait(number) => push_stage(text, indent, StageKind::Wait, number),
        Stmt::Continue(number) => push_stage(text, indent, StageKind::Continue, number),
    }
}

/// Appends the statements of a block, indented by two spaces more than the line that opens it.
/// Returns an error only if memory runs out.
#[cycle(block)]
pub fn push_block(text: &mut Vec<u8>, indent: usize, block: &Block) -> Result<(), NoMemory>
    ensures { OnOk result (text.new.items
        ≡ text.old.items ++ statements_text (indent + 2) (statements_of block.now.statements.items)) }
{
    // Memory cannot hold a line of more spaces than a `usize` can count.
    let deeper = indent.checked_add(2).ok_or(NoMemory)?;
    for s in &block.statements {
        push_statement(text, deeper, s)?;
    }
    Ok(())
}
