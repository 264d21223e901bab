//! The values of decimal digits.

ghost use Rattle.std.specs.Prelude.{◌≡◌, ◌≤◌, ◌<◌, IfNone, IfSome};
ghost use Rattle.pipe_model.specs.Language.Lexis.{number_of};

/// Returns the number that the digits write; `None` if it is above `most`.
pub fn number_up_to(digits: &[u8], most: u64) -> Option<u64>
    ensures some { IfSome result (λ v. v ≡ number_of digits.now) }
    ensures within { IfSome result (λ v. v ≤ most) }
    ensures none { IfNone result (most < number_of digits.now) }
{
    let mut value: u64 = 0;
    for digit in digits {
        let next = 10 * u128::from(value) + u128::from(digit.saturating_sub(b'0'));
        if next > u128::from(most) {
            return None;
        }
        value = next as u64;
    }
    Some(value)
}
