//! Numbers in plain decimal: digits without a leading zero, after a `-` if the number is negative.

ghost use Rattle.std.specs.Prelude.{◌≡◌, ◌≤◌, ◌∷◌, ℕ, ℤ, FitsSigned, IfNone, IfSome};
ghost use Rattle.std.specs.Fmt.{decimal, signed_decimal};
ghost use Rattle.std.specs.List.{list_all};
ghost use mir.Syntax.{w64};
ghost use Rattle.pipe_model.specs.Language.Lexis.{is_digit};
ghost use Rattle.pipe_io.specs.InputFile.{minus};
ghost use Rattle.record_parser.specs.PlainDecimals.{is_plain_decimal};
ghost use Rattle.record_parser.specs.declared.bounds.TheConstants.{LAST_ITERATION};

use crate::bounds::LAST_ITERATION;
use pipe_io::decimal::number_up_to;

// The greatest number of `i64`, and one more, whose negative is the least one.
const GREATEST: u64 = 9_223_372_036_854_775_807;

const PAST_GREATEST: u64 = 9_223_372_036_854_775_808;

// Whether all bytes are digits.
fn are_digits(bytes: &[u8]) -> bool
    ensures { result ≡ list_all is_digit bytes.now }
{
    bytes.iter().all(u8::is_ascii_digit)
}

// Whether these are one or more digits without a leading zero.
fn is_plain_decimal(bytes: &[u8]) -> bool
    ensures { result ≡ is_plain_decimal bytes.now }
{
    match bytes.split_first() {
        None => false,
        Some((first, following)) => are_digits(bytes) && (*first != b'0' || following.is_empty()),
    }
}

/// Returns the number that the bytes are in plain decimal, if it is at most `most`.
pub fn natural_field(bytes: &[u8], most: u64) -> Option<u64>
    ensures some { IfSome result (λ n. bytes.now ≡ decimal n) }
    ensures within { IfSome result (λ n. n ≤ most) }
    ensures none { IfNone result ((n : ℕ) → n ≤ most → bytes.now ≡ decimal n → ⊥) }
{
    if !is_plain_decimal(bytes) {
        return None;
    }
    number_up_to(bytes, most)
}

/// Returns the number of an iteration that the bytes are in plain decimal.
pub fn iteration_field(bytes: &[u8]) -> Option<u32>
    ensures some { IfSome result (λ n. bytes.now ≡ decimal n) }
    ensures within { IfSome result (λ n. n ≤ LAST_ITERATION) }
    ensures none { IfNone result ((n : ℕ) → n ≤ LAST_ITERATION → bytes.now ≡ decimal n → ⊥) }
{
    match natural_field(bytes, u64::from(LAST_ITERATION)) {
        Some(number) => Some(number as u32),
        None => None,
    }
}

// Returns the negative number whose magnitude the bytes are in plain decimal.
fn negative_field(bytes: &[u8]) -> Option<i64>
    ensures some { IfSome result (λ z. minus ∷ bytes.now ≡ signed_decimal z) }
    ensures none { IfNone result ((z : ℤ) → FitsSigned w64 z → minus ∷ bytes.now ≡ signed_decimal z → ⊥) }
{
    let Some(magnitude) = natural_field(bytes, PAST_GREATEST) else {
        return None;
    };
    if magnitude == 0 {
        return None;
    }
    let below = (magnitude - 1) as i64;
    Some(-1 - below)
}

/// Returns the number that the bytes are in plain decimal.
pub fn signed_field(bytes: &[u8]) -> Option<i64>
    ensures some { IfSome result (λ z. bytes.now ≡ signed_decimal z) }
    ensures none { IfNone result ((z : ℤ) → FitsSigned w64 z → bytes.now ≡ signed_decimal z → ⊥) }
{
    match bytes.split_first() {
        Some((b'-', following)) => negative_field(following),
        _ => match natural_field(bytes, GREATEST) {
            Some(number) => Some(number as i64),
            None => None,
        },
    }
}
