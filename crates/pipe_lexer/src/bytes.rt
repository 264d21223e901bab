//! Kinds of bytes, and the lengths of prefixes whose bytes are of one kind.

ghost use Rattle.std.specs.List.{prefix_len};
ghost use Rattle.std.specs.Prelude.{◌≡◌, ◌≤◌, length, not};
ghost use Rattle.pipe_model.specs.Language.Lexis.{is_blank, is_digit, is_letter, is_name_byte, is_sign};
ghost use Rattle.pipe_model.specs.Language.Tokens.{begins_comment, is_line_feed};

/// Returns whether the byte is a space, a tab, a carriage return or a line feed.
pub fn is_blank(b: u8) -> bool
    ensures { result ≡ is_blank b }
{
    matches!(b, b' ' | b'\t' | b'\r' | b'\n')
}

/// Returns whether the byte is a decimal digit.
pub fn is_digit(b: u8) -> bool
    ensures { result ≡ is_digit b }
{
    b.is_ascii_digit()
}

/// Returns whether the byte may begin a name: an ASCII letter or `_`.
pub fn is_letter(b: u8) -> bool
    ensures { result ≡ is_letter b }
{
    b.is_ascii_alphabetic() || b == b'_'
}

// Whether the byte may follow in a name: an ASCII letter, `_` or a digit.
fn is_name_byte(b: u8) -> bool
    ensures { result ≡ is_name_byte b }
{
    is_letter(b) || is_digit(b)
}

/// Returns whether the byte is a sign.
pub fn is_sign(b: u8) -> bool
    ensures { result ≡ is_sign b }
{
    matches!(
        b,
        b'!' | b'=' | b'(' | b')' | b'[' | b']' | b'{' | b'}' | b',' | b';'
    )
}

/// Returns the length of the longest prefix whose bytes may follow in a name.
pub fn name_bytes(bytes: &[u8]) -> usize
    ensures counted { result ≡ prefix_len is_name_byte bytes.now }
    ensures within { result ≤ length bytes.now }
{
    bytes.iter().take_while(|b| is_name_byte(**b)).count()
}

/// Returns the length of the longest prefix of digits.
pub fn digits(bytes: &[u8]) -> usize
    ensures counted { result ≡ prefix_len is_digit bytes.now }
    ensures within { result ≤ length bytes.now }
{
    bytes.iter().take_while(|b| is_digit(**b)).count()
}

/// Returns the number of bytes before the first line feed, or of all bytes if there is none.
pub fn line_bytes(bytes: &[u8]) -> usize
    ensures counted { result ≡ prefix_len (λ b. not (is_line_feed b)) bytes.now }
    ensures within { result ≤ length bytes.now }
{
    bytes.iter().take_while(|b| **b != b'\n').count()
}

/// Returns whether the bytes begin with two slashes.
pub fn begins_comment(bytes: &[u8]) -> bool
    ensures { result ≡ begins_comment bytes.now }
{
    matches!(bytes, [b'/', b'/', ..])
}
