//! The lines of a run's outcome: emitted numbers, races, and a trap.

ghost use Rattle.std.specs.Prelude.{◌≡◌, ◌↔◌, ◌≤◌, ◌++◌, ◌∷◌, IsTrue, IfNone, IfSome, List, ℕ, codes};
ghost use Rattle.record_parser.specs.LogForms.{space};
ghost use Rattle.std.specs.Bool.{OnFalse, OnTrue};
ghost use Rattle.pipe_model.specs.Language.CheckingRules.{cell_total};
ghost use Rattle.pipe_model.specs.declared.bounds.TheConstants.{MOST_CELLS};
ghost use Rattle.record_parser.specs.OutcomeForms.{EndsInAccess, IsInstanceText, IsOutcomeTrapText, IsPlaceText, IsRaceText};
ghost use Rattle.record_parser.specs.OutcomeForms.{IsWordedOutcome};
ghost use Rattle.record_parser.specs.RecordLines.{IsOutcomeLine};

use crate::names::{cell_field, kind_field, trap_field};
use crate::numbers::{iteration_field, signed_field};
use crate::split::{split_at_first, split_at_last};
use pipe_model::tree::Declaration;

// Whether these are an iteration and a stage number with a slash between them.
fn is_instance(bytes: &[u8]) -> bool
    ensures yes { OnTrue result (IsInstanceText bytes.now) }
    ensures no { OnFalse result (IsInstanceText bytes.now → ⊥) }
{
    let Some((first, second)) = split_at_first(bytes, b'/') else {
        return false;
    };
    let Some(_iteration) = iteration_field(first) else {
        return false;
    };
    let Some(_number) = signed_field(second) else {
        return false;
    };
    true
}

// Returns what is before the access at the end, if there is one there.
fn without_access(bytes: &[u8]) -> Option<&[u8]>
    ensures some { IfSome result (λ before. EndsInAccess bytes.now before.now) }
    ensures none { IfNone result ((before : List ℕ) → EndsInAccess bytes.now before → ⊥) }
{
    let Some((others, instance)) = split_at_last(bytes, b' ') else {
        return None;
    };
    if !is_instance(instance) {
        return None;
    }
    let Some((before, kind)) = split_at_last(others, b' ') else {
        return None;
    };
    let Some(_kind) = kind_field(kind) else {
        return None;
    };
    Some(before)
}

// Whether these are a cell and two accesses.
fn is_race(cells: &[Declaration], bytes: &[u8]) -> bool
    requires bounded { cell_total cells.now ≤ MOST_CELLS }
    ensures yes { OnTrue result (IsRaceText cells.now bytes.now) }
    ensures no { OnFalse result (IsRaceText cells.now bytes.now → ⊥) }
{
    let Some(once) = without_access(bytes) else {
        return false;
    };
    let Some(name) = without_access(once) else {
        return false;
    };
    let Some(_cell) = cell_field(cells, name) else {
        return false;
    };
    true
}

fn is_at(bytes: &[u8]) -> bool
    ensures { IsTrue result ↔ (bytes.now ≡ codes "at") }
{
    bytes == b"at".as_slice()
}

// Whether these are `at` and an instance.
fn is_at_instance(bytes: &[u8]) -> bool
    ensures yes { OnTrue result (IsPlaceText bytes.now) }
    ensures no { OnFalse result ((instance : List ℕ) → IsInstanceText instance → bytes.now ≡ codes "at" ++ space ∷ instance → ⊥) }
{
    let Some((first, second)) = split_at_first(bytes, b' ') else {
        return false;
    };
    if !is_at(first) {
        return false;
    }
    is_instance(second)
}

fn is_in_part(bytes: &[u8]) -> bool
    ensures yes { OnTrue result (IsPlaceText bytes.now) }
    ensures no { OnFalse result (bytes.now ≡ codes "in init" → ⊥) }
    ensures neither { OnFalse result (bytes.now ≡ codes "in final" → ⊥) }
{
    if bytes == b"in init".as_slice() {
        return true;
    }
    bytes == b"in final".as_slice()
}

// Whether these say where a trap occurred.
fn is_place(bytes: &[u8]) -> bool
    ensures yes { OnTrue result (IsPlaceText bytes.now) }
    ensures no { OnFalse result (IsPlaceText bytes.now → ⊥) }
{
    if is_in_part(bytes) {
        return true;
    }
    is_at_instance(bytes)
}

// Whether these are a trap and its place.
fn is_outcome_trap(bytes: &[u8]) -> bool
    ensures yes { OnTrue result (IsOutcomeTrapText bytes.now) }
    ensures no { OnFalse result (IsOutcomeTrapText bytes.now → ⊥) }
{
    let Some((trap, place)) = split_at_first(bytes, b' ') else {
        return false;
    };
    let Some(_trap) = trap_field(trap) else {
        return false;
    };
    is_place(place)
}

fn is_race_word(bytes: &[u8]) -> bool
    ensures { IsTrue result ↔ (bytes.now ≡ codes "race") }
{
    bytes == b"race".as_slice()
}

fn is_trap_word(bytes: &[u8]) -> bool
    ensures { IsTrue result ↔ (bytes.now ≡ codes "trap") }
{
    bytes == b"trap".as_slice()
}

// Whether the line is one of a race or a trap.
fn is_worded(cells: &[Declaration], line: &[u8]) -> bool
    requires bounded { cell_total cells.now ≤ MOST_CELLS }
    ensures yes { OnTrue result (IsWordedOutcome cells.now line.now) }
    ensures no { OnFalse result (IsWordedOutcome cells.now line.now → ⊥) }
{
    let Some((word, fields)) = split_at_first(line, b' ') else {
        return false;
    };
    if is_race_word(word) {
        return is_race(cells, fields);
    }
    if is_trap_word(word) {
        return is_outcome_trap(fields);
    }
    false
}

/// Returns whether this is a line of a run's outcome, without its line feed.
pub fn is_outcome_line(cells: &[Declaration], line: &[u8]) -> bool
    requires bounded { cell_total cells.now ≤ MOST_CELLS }
    ensures yes { OnTrue result (IsOutcomeLine cells.now line.now) }
    ensures no { OnFalse result (IsOutcomeLine cells.now line.now → ⊥) }
{
    let Some(_number) = signed_field(line) else {
        return is_worded(cells, line);
    };
    true
}
