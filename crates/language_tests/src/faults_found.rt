//! The first fault of a source, and the comparison with the fault of a row.

ghost use Rattle.pipe_model.specs.Language.Tokens.{IsLexed};

use pipe_check::fault::CheckFault;
use pipe_check::program::check;
use pipe_lexer::fault::LexFault;
use pipe_lexer::scan::tokens;
use pipe_model::list::Numbers;
use pipe_model::token::Tokens;
use pipe_parser::parse::{ParseFault, Parsed, parse};
use std::alloc::Global;
use std::fmt::Debug;

/// Limits in their ranges, 49 bytes.
pub const LIMITS: &str = "limits iterations 1, stages 1, steps 1, emits 1; ";

/// A fault of a source.
#[derive(Clone, Copy)]
pub enum SourceFault {
    /// Its bytes are no tokens.
    Lexical(LexFault),
    /// Its tokens are no program.
    Syntactic(ParseFault),
    /// Its program breaks a rule.
    Broken(CheckFault),
}

// The first fault of a source, if it has one, and the offsets of the marks if the source is a program.
#[derive(Drop)]
struct FoundFault {
    fault: Option<SourceFault>,
    places: Numbers,
}

// The first fault of a program that was parsed.
fn find_in_program(alloc: Global, source: &[u8], tokens: &Tokens) -> FoundFault
    requires { IsLexed source.now tokens.now }
{
    match parse(alloc, source, tokens) {
        Err(fault) => FoundFault {
            fault: Some(SourceFault::Syntactic(fault)),
            places: Numbers::new(alloc),
        },
        Ok(parsed) => {
            let Parsed { program, places } = parsed;
            let fault = match check(alloc, program) {
                Ok(checked) => {
                    drop(checked);
                    None
                }
                Err(fault) => Some(SourceFault::Broken(fault)),
            };
            FoundFault { fault, places }
        }
    }
}

fn find_fault(alloc: Global, source: &[u8]) -> FoundFault {
    match tokens(alloc, source) {
        Err(fault) => FoundFault {
            fault: Some(SourceFault::Lexical(fault)),
            places: Numbers::new(alloc),
        },
        Ok(tokens) => {
            let found = find_in_program(alloc, source, &tokens);
            drop(tokens);
            found
        }
    }
}

/// Returns the first fault of a source, if it has one.
pub fn first_fault(alloc: Global, source: &str) -> Option<SourceFault> {
    let found = find_fault(alloc, source.as_bytes());
    let fault = found.fault;
    drop(found);
    fault
}

/// Returns whether the source is a program that breaks no rule.
pub fn is_accepted(alloc: Global, source: &str) -> bool {
    first_fault(alloc, source).is_none()
}

// Whether `Debug` prints a fault of a crate like this.
fn prints<F: Debug>(alloc: Global, fault: &F, expected: &str) -> bool {
    match format!(in alloc; "{fault:?}") {
        Ok(found) => found.as_str() == expected,
        Err(_) => false,
    }
}

// Whether a fault is printed like this.
fn is_printed(alloc: Global, fault: SourceFault, expected: &str) -> bool {
    match fault {
        SourceFault::Lexical(fault) => prints(alloc, &fault, expected),
        SourceFault::Syntactic(fault) => prints(alloc, &fault, expected),
        SourceFault::Broken(fault) => prints(alloc, &fault, expected),
    }
}

// Whether this is the fault of a kind at an offset, or at a mark.
fn is_fault(alloc: Global, fault: Option<SourceFault>, kind: &str, number: usize) -> bool {
    let Some(fault) = fault else {
        return false;
    };
    match format!(in alloc; "{kind}({number})") {
        Ok(expected) => is_printed(alloc, fault, expected.as_str()),
        Err(_) => false,
    }
}

// Whether the source has this fault at this offset.
fn has_fault_at(alloc: Global, kind: &str, source: &[u8], offset: usize) -> bool {
    let found = find_fault(alloc, source);
    // The fault of a rule has the number of the mark, counted from 0.
    let mark = number_of_mark(found.places.as_slice(), offset);
    let fault = found.fault;
    drop(found);
    is_fault(alloc, fault, kind, mark.unwrap_or(offset))
}

fn number_of_mark(places: &[i64], offset: usize) -> Option<usize> {
    places
        .iter()
        .position(|place| i128::from(*place) == offset as i128)
}

/// Returns whether the source without its first `@` has this fault at the offset of that `@`.
pub fn has_fault(alloc: Global, kind: &str, source: &str) -> bool {
    let Some((before, after)) = source.split_once('@') else {
        return false;
    };
    match [before, after].concat(alloc) {
        Ok(source) => has_fault_at(alloc, kind, source.as_bytes(), before.len()),
        Err(_) => false,
    }
}

/// Returns whether the texts are such a source, one after the other.
pub fn texts_have_fault(alloc: Global, kind: &str, texts: &[&str]) -> bool {
    match texts.concat(alloc) {
        Ok(source) => has_fault(alloc, kind, source.as_str()),
        Err(_) => false,
    }
}

/// Returns whether the texts, one after the other, are a program that breaks no rule.
pub fn texts_are_accepted(alloc: Global, texts: &[&str]) -> bool {
    match texts.concat(alloc) {
        Ok(source) => is_accepted(alloc, source.as_str()),
        Err(_) => false,
    }
}

/// Sources of one kind of fault. Each is `before`, a row and `after`, and has the fault at the offset of
/// its first `@`, without that `@`.
pub struct Faulty {
    pub kind: &'static str,
    pub before: &'static str,
    pub rows: &'static [&'static str],
    pub after: &'static str,
}

// Whether the source of a row has the fault.
fn row_has_fault(alloc: Global, kind: &str, before: &str, row: &str, after: &str) -> bool {
    texts_have_fault(alloc, kind, &[before, row, after])
}

// The first row whose source does not have the fault.
fn first_other_row(alloc: Global, sources: &Faulty) -> Option<usize> {
    for (index, row) in sources.rows.iter().enumerate() {
        if !row_has_fault(alloc, sources.kind, sources.before, row, sources.after) {
            return Some(index);
        }
    }
    None
}

/// Returns where the first source is that does not have its fault: the number of its kind, and of its row.
pub fn first_other(alloc: Global, kinds: &[Faulty]) -> Option<(usize, usize)> {
    for (number, sources) in kinds.iter().enumerate() {
        if let Some(row) = first_other_row(alloc, sources) {
            return Some((number, row));
        }
    }
    None
}
