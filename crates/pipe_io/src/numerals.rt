//! The number with which bytes begin.

ghost use Rattle.std.specs.Prelude.{◌≡◌, ◌≤◌, ◌<◌, ◌+◌, IfErr, IfOk, IfSome, IfNone, false, length, ◌∷◌};
ghost use Rattle.std.specs.List.{prefix_len};
ghost use Rattle.std.specs.Bool.{OnTrue, OnFalse};
ghost use Rattle.pipe_model.specs.Language.Lexis.{is_blank, is_digit, number_of};
ghost use Rattle.pipe_io.specs.declared.bounds.TheConstants as bounds;
ghost use Rattle.pipe_io.specs.InputFile.{EndsNumber, FitsI64, signed};
ghost use Rattle.pipe_io.specs.Numerals.{BeginsPlain, IsFlaw, IsNumeralOf, fault_at, offset_of, with_sign};

use crate::bounds::MOST_NUMBERS;
use crate::decimal::number_up_to;
use crate::input_fault::InputFault;

/// The value of a number with which bytes begin, and its length in bytes.
#[derive(Clone, Copy)]
pub struct Numeral {
    pub value: i64,
    pub length: usize,
}

/// What is wrong at the beginning of bytes.
#[derive(Clone, Copy)]
pub enum Flaw {
    /// The byte at this offset is neither in a number nor a separator.
    BadByte(usize),
    /// A number outside the range of `i64`.
    TooWide,
    /// One number too many.
    TooMany,
}

impl Flaw {
    /// Returns the fault of this flaw at an offset.
    pub fn at(self, place: usize) -> InputFault
        requires { place + offset_of self ≤ bounds.LONGEST_INPUT }
        ensures { result ≡ fault_at self place }
    {
        match self {
            Flaw::BadByte(offset) => InputFault::BadByte((place + offset) as u32),
            Flaw::TooWide => InputFault::TooWide(place as u32),
            Flaw::TooMany => InputFault::TooMany(place as u32),
        }
    }
}

/// Returns whether the byte is a separator: a space, a tab, a carriage return or a line feed.
pub fn is_blank(b: u8) -> bool
    ensures { result ≡ is_blank b }
{
    matches!(b, b' ' | b'\t' | b'\r' | b'\n')
}

// The length of the longest prefix of digits.
fn count_digits(bytes: &[u8]) -> usize
    ensures counted { result ≡ prefix_len is_digit bytes.now }
    ensures within { result ≤ length bytes.now }
{
    bytes.iter().take_while(|b| b.is_ascii_digit()).count()
}

// Whether a number may end here: the file ends, or a separator is next.
fn ends_number(bytes: &[u8]) -> bool
    ensures yes { OnTrue result (EndsNumber bytes.now) }
    ensures no { OnFalse result (EndsNumber bytes.now → ⊥) }
{
    match bytes.first() {
        None => true,
        Some(first) => is_blank(*first),
    }
}

// The number with these digits and this sign; `None` if it is outside the range of `i64`.
fn signed_value(is_negative: bool, digits: &[u8]) -> Option<i64>
    ensures some { IfSome result (λ v. v ≡ signed is_negative (number_of digits.now)) }
    ensures fits { IfSome result (λ v. FitsI64 v) }
    ensures none { IfNone result (FitsI64 (signed is_negative (number_of digits.now)) → ⊥) }
{
    if is_negative {
        let value = number_up_to(digits, 1 << 63)?;
        return Some((-i128::from(value)) as i64);
    }
    let value = number_up_to(digits, (1 << 63) - 1)?;
    Some(value as i64)
}

// Reads the number with which the bytes begin, after its sign; `before` numbers come before it.
fn numeral_of(is_negative: bool, bytes: &[u8], before: usize) -> Result<Numeral, Flaw>
    requires bounded { before ≤ bounds.MOST_NUMBERS }
    requires plain { is_negative ≡ false → BeginsPlain bytes.now }
    ensures numeral { IfOk result (λ numeral. IsNumeralOf (with_sign is_negative bytes.now) numeral) }
    ensures flaw { IfErr result (λ flaw. IsFlaw (with_sign is_negative bytes.now) before flaw) }
    ensures within { IfErr result (λ flaw. offset_of flaw ≤ length (with_sign is_negative bytes.now)) }
    ensures room { IfOk result (λ _. before < bounds.MOST_NUMBERS) }
{
    let sign = usize::from(is_negative);
    let count = count_digits(bytes);
    if count == 0 {
        return Err(Flaw::BadByte(sign));
    }
    if before == MOST_NUMBERS {
        return Err(Flaw::TooMany);
    }
    let Some(value) = signed_value(is_negative, &bytes[..count]) else {
        return Err(Flaw::TooWide);
    };
    if !ends_number(&bytes[count..]) {
        return Err(Flaw::BadByte(sign + count));
    }
    Ok(Numeral {
        value,
        length: sign + count,
    })
}

/// Reads the number with which the bytes begin; `before` numbers come before it. The bytes are
/// `first`, which is no separator, and then `following`. Returns an error if no number within the
/// bounds begins there, or a byte that is no separator follows it.
pub fn numeral_at(bytes: &[u8], first: u8, following: &[u8], before: usize) -> Result<Numeral, Flaw>
    requires bounded { before ≤ bounds.MOST_NUMBERS }
    requires parts { bytes.now ≡ first ∷ following.now }
    requires no_blank { is_blank first ≡ false }
    ensures numeral { IfOk result (λ numeral. IsNumeralOf bytes.now numeral) }
    ensures flaw { IfErr result (λ flaw. IsFlaw bytes.now before flaw) }
    ensures within { IfErr result (λ flaw. offset_of flaw ≤ length bytes.now) }
    ensures room { IfOk result (λ _. before < bounds.MOST_NUMBERS) }
{
    if first == b'-' {
        numeral_of(true, following, before)
    } else {
        numeral_of(false, bytes, before)
    }
}
