//! The lines of races, as race reports print them.

ghost use Rattle.std.specs.Prelude.{◌≡◌, ◌++◌, codes, IfOk, OnOk};
ghost use Rattle.race_report.specs.CellNames.{cell_name, declared_name, element_name, race_lines};
ghost use Rattle.pipe_model.specs.Language.Programs.{declared_size};
ghost use Rattle.pipe_model.specs.Texts.{instance_text, kind_text, race_line};

use pipe_check::checked::Checked;
use pipe_model::access::{AccessKind, CellId};
use pipe_model::list::Bytes;
use pipe_model::memory::NoMemory;
use pipe_model::node::NodeId;
use pipe_model::report::{Report, Reports};
use pipe_model::tree::Declaration;
use std::alloc::{AllocError, Global};

// The number of cells of a declaration.
fn size_of(declaration: &Declaration) -> u64
    ensures { result ≡ declared_size declaration.now.size }
{
    match declaration.size {
        None => 1,
        Some(size) => u64::try_from(size).unwrap_or(0),
    }
}

// Appends the name of a declaration's cell, by its index.
fn push_element(
    text: &mut Vec<u8>,
    alloc: Global,
    declaration: &Declaration,
    element: u64,
) -> Result<(), AllocError>
    ensures { OnOk result (text.new.items ≡ text.old.items ++ element_name declaration.now element) }
{
    text.extend_from_slice(declaration.name.as_bytes())?;
    if declaration.size.is_some() {
        let index = format!(in alloc; "[{element}]")?;
        text.extend_from_slice(index.as_bytes())?;
    }
    Ok(())
}

// Appends the name of a declared cell, by its index among the cells of all declarations.
#[tactic(auto, using(crate::proofs::RaceLines::name_step))]
fn push_declared(
    text: &mut Vec<u8>,
    alloc: Global,
    cells: &[Declaration],
    place: u64,
) -> Result<(), AllocError>
    ensures { OnOk result (text.new.items ≡ text.old.items ++ declared_name cells.now place) }
{
    let mut rest = place;
    for declaration in cells {
        let size = size_of(declaration);
        if rest < size {
            return push_element(text, alloc, declaration, rest);
        }
        rest -= size;
    }
    Ok(())
}

/// Appends the name of a cell, as the lines of races and of run logs print it. Returns an error only
/// if memory runs out; the text may have a part of the name then.
pub fn push_cell(
    text: &mut Vec<u8>,
    alloc: Global,
    cells: &[Declaration],
    cell: CellId,
) -> Result<(), AllocError>
    ensures { OnOk result (text.new.items ≡ text.old.items ++ cell_name cells.now cell.0) }
{
    match cell.0 {
        0 => text.extend_from_slice(b"input"),
        1 => text.extend_from_slice(b"output"),
        declared => push_declared(text, alloc, cells, u64::from(declared - 2)),
    }
}

/// Returns the word for a kind of access, as the lines of races and of run logs print it.
pub fn word_of(kind: AccessKind) -> &'static str
    ensures { result.now ≡ kind_text kind }
{
    match kind {
        AccessKind::Read => "read",
        AccessKind::Write => "write",
    }
}

// Appends an access: its kind, and its instance by iteration and stage number.
fn push_access(
    text: &mut Vec<u8>,
    alloc: Global,
    kind: AccessKind,
    node: NodeId,
    number: i64,
) -> Result<(), AllocError>
    ensures { OnOk result (text.new.items
        ≡ text.old.items ++ (codes " " ++ (kind_text kind ++ (codes " " ++ instance_text node number)))) }
{
    let word = word_of(kind);
    let iteration = node.iteration;
    let access = format!(in alloc; " {word} {iteration}/{number}")?;
    text.extend_from_slice(access.as_bytes())
}

// Appends the line of a race.
fn push_race(
    text: &mut Vec<u8>,
    alloc: Global,
    cells: &[Declaration],
    report: Report,
) -> Result<(), AllocError>
    ensures { OnOk result (text.new.items ≡ text.old.items ++ race_line (cell_name cells.now) report) }
{
    text.extend_from_slice(b"race ")?;
    push_cell(text, alloc, cells, report.cell)?;
    push_access(
        text,
        alloc,
        report.earlier_kind,
        report.earlier,
        report.earlier_number,
    )?;
    push_access(
        text,
        alloc,
        report.later_kind,
        report.later,
        report.later_number,
    )?;
    text.extend_from_slice(b"\n")?;
    Ok(())
}

// The lines of races, one for each report, with the names of the declared cells.
fn lines_of(alloc: Global, cells: &[Declaration], reports: &[Report]) -> Result<Vec<u8>, AllocError>
    ensures { IfOk result (λ text. text.items ≡ race_lines cells.now reports.now) }
{
    let mut text = Vec::new(alloc);
    for report in reports {
        push_race(&mut text, alloc, cells, *report)?;
    }
    Ok(text)
}

/// Builds the lines of races, one for each report, with the names of the program's cells. Returns
/// an error only if memory runs out.
pub fn text(alloc: Global, reports: &Reports, checked: &Checked) -> Result<Bytes, NoMemory>
    ensures { IfOk result (λ bytes. bytes ≡ race_lines checked.now.cells reports.now) }
{
    let cells = checked.program().cells.as_slice();
    Ok(Bytes::from_vec(lines_of(alloc, cells, reports.as_slice())?))
}
