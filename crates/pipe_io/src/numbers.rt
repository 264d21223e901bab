//! The numbers of a whole input.

ghost use Rattle.std.specs.Prelude.{IfErr, IfOk};
ghost use Rattle.pipe_io.specs.InputFile.{AreNumbersOf, IsFaultOf};

use crate::bounds::{LONGEST_INPUT, MOST_NUMBERS};
use crate::input_fault::InputFault;
use crate::numerals::{is_blank, numeral_at};
use pipe_model::list::Numbers;
use std::alloc::Global;

/// Returns the numbers of an input: each is an optional `-` and one or more digits, and spaces,
/// tabs, carriage returns and line feeds separate them. `TooLong` is returned exactly when the input
/// has more than 16,777,216 bytes. Otherwise `BadByte`, `TooWide` and `TooMany` report the first
/// fault, with its offset: a byte that is neither in a number nor a separator, a number outside the
/// range of `i64`, or number 1,048,577. At the same offset `TooMany` comes before `TooWide`.
/// `NoMemory` is returned if memory runs out, whatever the input.
pub fn numbers(alloc: Global, bytes: &[u8]) -> Result<Numbers, InputFault>
    ensures numbers { IfOk result (λ found. AreNumbersOf bytes.now found) }
    ensures fault { IfErr result (λ fault. IsFaultOf bytes.now fault) }
{
    if LONGEST_INPUT < bytes.len() {
        return Err(InputFault::TooLong);
    }
    let mut found = Numbers::with_capacity(alloc, MOST_NUMBERS.min(bytes.len() / 2 + 1))?;
    let mut rest = bytes;
    while let Some((first, following)) = rest.split_first() {
        if is_blank(*first) {
            rest = following;
            continue;
        }
        let numeral = match numeral_at(rest, *first, following, found.len()) {
            Ok(numeral) => numeral,
            Err(flaw) => return Err(flaw.at(bytes.len() - rest.len())),
        };
        found.push(numeral.value)?;
        rest = &rest[numeral.length..];
    }
    Ok(found)
}
