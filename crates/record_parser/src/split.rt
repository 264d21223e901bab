//! Bytes that are divided at a byte.

ghost use Rattle.std.specs.Prelude.{◌≡◌, ◌++◌, ◌∷◌, IfNone, IfSome};
ghost use Rattle.record_parser.specs.ByteDivisions.{IsFreeOf};

/// Returns what is before and after the first occurrence of a byte. Returns `None` if there is none.
pub fn split_at_first(bytes: &[u8], byte: u8) -> Option<(&[u8], &[u8])>
    ensures parts { IfSome result (λ r. bytes.now ≡ r.0.now ++ byte ∷ r.1.now) }
    ensures first { IfSome result (λ r. IsFreeOf byte r.0.now) }
    ensures none { IfNone result (IsFreeOf byte bytes.now) }
{
    for k in 0..bytes.len() {
        if bytes[k] == byte {
            return Some((&bytes[..k], &bytes[k + 1..]));
        }
    }
    None
}

/// Returns what is before and after the last occurrence of a byte. Returns `None` if there is none.
pub fn split_at_last(bytes: &[u8], byte: u8) -> Option<(&[u8], &[u8])>
    ensures parts { IfSome result (λ r. bytes.now ≡ r.0.now ++ byte ∷ r.1.now) }
    ensures last { IfSome result (λ r. IsFreeOf byte r.1.now) }
    ensures none { IfNone result (IsFreeOf byte bytes.now) }
{
    let mut end = bytes.len();
    while end > 0 {
        end -= 1;
        if bytes[end] == byte {
            return Some((&bytes[..end], &bytes[end + 1..]));
        }
    }
    None
}
