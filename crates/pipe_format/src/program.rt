//! The text of a program.

ghost use Rattle.std.specs.Prelude.{◌≡◌, ◌++◌, IfOk, OnOk};
ghost use Rattle.std.specs.Fmt.{signed_decimal};
ghost use Rattle.std.specs.List.{flat_map};
ghost use Rattle.pipe_model.specs.Language.CanonicalText.{cell_text, limits_text, loop_text, part_text, program_text, size_text};
ghost use Rattle.pipe_format.specs.TextLaws.{SpellsAsSources};
ghost use Rattle.pipe_model.specs.Language.SyntaxTree.{expression_of, statements_of, tree_of};

use crate::statement::{push_between, push_block};
use crate::text::{push_line, push_number};
use pipe_model::list::Bytes;
use pipe_model::memory::NoMemory;
use pipe_model::tree::{Block, Declaration, Expr, Limits, Program};
use std::alloc::Global;

// Appends bytes and then a number.
fn push_field(text: &mut Vec<u8>, before: &[u8], number: i64) -> Result<(), NoMemory>
    ensures { OnOk result (text.new.items ≡ text.old.items ++ (before.now ++ signed_decimal number)) }
{
    text.extend_from_slice(before)?;
    push_number(text, number)
}

fn push_limits(text: &mut Vec<u8>, limits: &Limits) -> Result<(), NoMemory>
    ensures { OnOk result (text.new.items ≡ text.old.items ++ limits_text limits.now) }
{
    push_field(text, b"limits iterations ", limits.iterations)?;
    push_field(text, b", stages ", limits.stages)?;
    push_field(text, b", steps ", limits.steps)?;
    push_field(text, b", emits ", limits.emits)?;
    text.extend_from_slice(b";\n")?;
    Ok(())
}

fn push_size(text: &mut Vec<u8>, size: Option<i64>) -> Result<(), NoMemory>
    ensures { OnOk result (text.new.items ≡ text.old.items ++ size_text size) }
{
    if let Some(size) = size {
        text.push(b'[')?;
        push_number(text, size)?;
        text.push(b']')?;
    }
    Ok(())
}

fn push_cell(text: &mut Vec<u8>, cell: &Declaration) -> Result<(), NoMemory>
    ensures { OnOk result (text.new.items ≡ text.old.items ++ cell_text cell.now) }
{
    text.extend_from_slice(b"cell ")?;
    text.extend_from_slice(cell.name.as_bytes())?;
    push_size(text, cell.size)?;
    push_field(text, b" = ", cell.value)?;
    text.extend_from_slice(b";\n")?;
    Ok(())
}

fn push_cells(text: &mut Vec<u8>, cells: &[Declaration]) -> Result<(), NoMemory>
    ensures { OnOk result (text.new.items ≡ text.old.items ++ flat_map cell_text cells.now) }
{
    for cell in cells {
        push_cell(text, cell)?;
    }
    Ok(())
}

// Appends a part, its word and its block; nothing if the block is empty.
fn push_part(text: &mut Vec<u8>, word: &[u8], block: &Block) -> Result<(), NoMemory>
    ensures { OnOk result (text.new.items
        ≡ text.old.items ++ part_text word.now (statements_of block.now.statements.items)) }
{
    if block.statements.is_empty() {
        return Ok(());
    }
    text.extend_from_slice(word)?;
    text.extend_from_slice(b" {\n")?;
    push_block(text, 0, block)?;
    push_line(text, 0, b"}")
}

fn push_loop(text: &mut Vec<u8>, test: &Expr, body: &Block) -> Result<(), NoMemory>
    ensures { OnOk result (text.new.items
        ≡ text.old.items ++ loop_text (expression_of test.now) (statements_of body.now.statements.items)) }
{
    push_between(text, 0, b"pipe_while (", test, b") {\n")?;
    push_block(text, 0, body)?;
    push_line(text, 0, b"}")
}

/// Returns the canonical text of a program. If some source spells the program, and the text is not
/// longer than a source may be, the text spells the program too. Returns an error only if memory
/// runs out.
pub fn format(alloc: Global, program: &Program) -> Result<Bytes, NoMemory>
    ensures text { IfOk result (λ text. text ≡ program_text (tree_of program.now)) }
    ensures spells { IfOk result (λ text. SpellsAsSources (tree_of program.now) text) }
{
    let mut text = Vec::new(alloc);
    push_limits(&mut text, &program.limits)?;
    push_cells(&mut text, program.cells.as_slice())?;
    push_part(&mut text, b"init", &program.init)?;
    push_loop(&mut text, &program.test, &program.body)?;
    push_part(&mut text, b"final", &program.last)?;
    Ok(Bytes::from_vec(text))
}
