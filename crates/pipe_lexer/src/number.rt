//! The values of numbers.

ghost use Rattle.std.specs.Prelude.{◌≡◌, ◌≤◌, ◌^◌, IfNone, IfSome, pos};
ghost use Rattle.pipe_model.specs.Language.Lexis.{number_of};

/// Returns the number that the digits write; `None` if it is above 9223372036854775807.
pub fn number_value(digits: &[u8]) -> Option<i64>
    ensures some { IfSome result (λ v. v ≡ pos (number_of digits.now)) }
    ensures none { IfNone result (2 ^ 63 ≤ number_of digits.now) }
{
    let mut value: u128 = 0;
    for digit in digits {
        value = 10 * value + u128::from(digit.saturating_sub(b'0'));
        if value > i64::MAX as u128 {
            return None;
        }
    }
    Some(value as i64)
}
