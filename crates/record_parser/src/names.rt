//! The names of cells, traps and kinds of access.

ghost use Rattle.std.specs.Prelude.{◌≡◌, ◌<◌, ◌≤◌, ◌+◌, ◌++◌, ℕ, IfNone, IfSome, codes};
ghost use Rattle.std.specs.Fmt.{decimal};
ghost use Rattle.pipe_model.specs.Language.CheckingRules.{cell_total};
ghost use Rattle.pipe_model.specs.declared.bounds.TheConstants.{MOST_CELLS};
ghost use Rattle.pipe_model.specs.Language.Programs.{declared_size};
ghost use Rattle.pipe_model.specs.Texts.{kind_text, trap_name};
ghost use Rattle.pipe_model.specs.declared.access.AccessKind.{AccessKind as PlainKind};
ghost use Rattle.pipe_model.specs.declared.trap.Trap.{Trap as PlainTrap};
ghost use Rattle.race_report.specs.CellNames.{cell_name, declared_name, element_index, element_name};
ghost use Rattle.record_parser.specs.RecordLines.{IsCell};

use crate::numbers::natural_field;
use crate::split::split_at_last;
use pipe_model::access::{AccessKind, CellId};
use pipe_model::trap::Trap;
use pipe_model::tree::Declaration;

// The number of cells of a declaration.
fn size_of(declaration: &Declaration) -> u64
    ensures { result ≡ declared_size declaration.now.size }
{
    match declaration.size {
        None => 1,
        Some(size) => u64::try_from(size).unwrap_or(0),
    }
}

// Returns the index in brackets, if it is below `size`.
fn bracketed(bytes: &[u8], size: u64) -> Option<u64>
    ensures some { IfSome result (λ k. bytes.now ≡ codes "[" ++ (decimal k ++ codes "]")) }
    ensures below { IfSome result (λ k. k < size) }
    ensures none { IfNone result ((k : ℕ) → k < size → bytes.now ≡ codes "[" ++ (decimal k ++ codes "]") → ⊥) }
{
    let Some((b'[', inner)) = bytes.split_first() else {
        return None;
    };
    let Some((digits, after)) = split_at_last(inner, b']') else {
        return None;
    };
    if !after.is_empty() || size == 0 {
        return None;
    }
    natural_field(digits, size - 1)
}

// Returns the index of an element by what follows the declared name.
fn index_field(declaration: &Declaration, bytes: &[u8]) -> Option<u64>
    ensures some { IfSome result (λ k. bytes.now ≡ element_index declaration.now.size k) }
    ensures below { IfSome result (λ k. k < declared_size declaration.now.size) }
    ensures none { IfNone result ((k : ℕ) → k < declared_size declaration.now.size
        → bytes.now ≡ element_index declaration.now.size k → ⊥) }
{
    if declaration.size.is_some() {
        return bracketed(bytes, size_of(declaration));
    }
    if bytes.is_empty() {
        return Some(0);
    }
    None
}

// Returns the index of the declaration's cell with this name.
fn element_field(declaration: &Declaration, bytes: &[u8]) -> Option<u64>
    ensures some { IfSome result (λ k. bytes.now ≡ element_name declaration.now k) }
    ensures below { IfSome result (λ k. k < declared_size declaration.now.size) }
    ensures none { IfNone result ((k : ℕ) → k < declared_size declaration.now.size
        → bytes.now ≡ element_name declaration.now k → ⊥) }
{
    let Some(after) = bytes.strip_prefix(declaration.name.as_bytes()) else {
        return None;
    };
    index_field(declaration, after)
}

// Returns the index of the declared cell with this name, counted from 0 over all declarations.
fn declared_field(cells: &[Declaration], bytes: &[u8]) -> Option<u64>
    requires bounded { cell_total cells.now ≤ MOST_CELLS }
    ensures some { IfSome result (λ k. bytes.now ≡ declared_name cells.now k) }
    ensures below { IfSome result (λ k. k < cell_total cells.now) }
    ensures none { IfNone result ((k : ℕ) → k < cell_total cells.now → bytes.now ≡ declared_name cells.now k → ⊥) }
{
    let mut before = 0;
    for declaration in cells {
        if let Some(element) = element_field(declaration, bytes) {
            return Some(before + element);
        }
        before += size_of(declaration);
    }
    None
}

/// Returns the cell with this name. Returns `None` if there is none.
pub fn cell_field(cells: &[Declaration], bytes: &[u8]) -> Option<CellId>
    requires bounded { cell_total cells.now ≤ MOST_CELLS }
    ensures some { IfSome result (λ c. bytes.now ≡ cell_name cells.now c.0) }
    ensures there { IfSome result (λ c. IsCell cells.now c.0) }
    ensures none { IfNone result ((c : ℕ) → IsCell cells.now c → bytes.now ≡ cell_name cells.now c → ⊥) }
{
    if bytes == b"input".as_slice() {
        return Some(CellId(0));
    }
    if bytes == b"output".as_slice() {
        return Some(CellId(1));
    }
    match declared_field(cells, bytes) {
        Some(declared) => Some(CellId(declared as u32 + 2)),
        None => None,
    }
}

/// Returns the kind of access with this word. Returns `None` if there is none.
pub fn kind_field(bytes: &[u8]) -> Option<AccessKind>
    ensures some { IfSome result (λ kind. bytes.now ≡ kind_text kind) }
    ensures none { IfNone result ((kind : PlainKind) → bytes.now ≡ kind_text kind → ⊥) }
{
    if bytes == b"read".as_slice() {
        return Some(AccessKind::Read);
    }
    if bytes == b"write".as_slice() {
        return Some(AccessKind::Write);
    }
    None
}

/// Returns the trap with this name. Returns `None` if there is none.
pub fn trap_field(bytes: &[u8]) -> Option<Trap>
    ensures some { IfSome result (λ trap. bytes.now ≡ trap_name trap) }
    ensures none { IfNone result ((trap : PlainTrap) → bytes.now ≡ trap_name trap → ⊥) }
{
    if bytes == b"Overflow".as_slice() {
        return Some(Trap::Overflow);
    }
    if bytes == b"DivZero".as_slice() {
        return Some(Trap::DivZero);
    }
    if bytes == b"Index".as_slice() {
        return Some(Trap::Index);
    }
    if bytes == b"Budget".as_slice() {
        return Some(Trap::Budget);
    }
    if bytes == b"StageOrder".as_slice() {
        return Some(Trap::StageOrder);
    }
    if bytes == b"StageLimit".as_slice() {
        return Some(Trap::StageLimit);
    }
    if bytes == b"InputEnd".as_slice() {
        return Some(Trap::InputEnd);
    }
    if bytes == b"IterLimit".as_slice() {
        return Some(Trap::IterLimit);
    }
    if bytes == b"OutputLimit".as_slice() {
        return Some(Trap::OutputLimit);
    }
    None
}
