//! The numbers of options.

ghost use Rattle.std.specs.Prelude.{◌≡◌, option_map};
ghost use Rattle.std.specs.List.{list_all};
ghost use Rattle.pipe_model.specs.Language.Lexis.{is_digit};
ghost use Rattle.cilkp_words.specs.OptionNumbers.{is_plain_decimal, number_in, number_or};

use pipe_io::decimal::number_up_to;

// Whether all bytes are digits.
fn are_digits(bytes: &[u8]) -> bool
    ensures { result ≡ list_all is_digit bytes.now }
{
    bytes.iter().all(u8::is_ascii_digit)
}

// Whether the word is one or more digits without a leading zero.
fn is_plain_decimal(word: &[u8]) -> bool
    ensures { result ≡ is_plain_decimal word.now }
{
    match word.split_first() {
        None => false,
        Some((first, following)) => are_digits(word) && (*first != b'0' || following.is_empty()),
    }
}

// The number that the word writes; `None` if it is no plain decimal number from `least` to `most`.
fn number_in(least: u32, most: u32, word: &str) -> Option<u32>
    ensures { result ≡ number_in least most word.now }
{
    let digits = word.as_bytes();
    if !is_plain_decimal(digits) {
        return None;
    }
    let value = number_up_to(digits, u64::from(most))?;
    if value < u64::from(least) {
        return None;
    }
    Some(value as u32)
}

/// Returns the number of an option, or its default if the option is not given; `None` if its word
/// is no plain decimal number from `least` to `most`.
pub fn number_or(default: u32, least: u32, most: u32, word: Option<&str>) -> Option<u32>
    ensures { result ≡ number_or default least most (option_map (λ s. s.now) word.entry) }
{
    match word {
        None => Some(default),
        Some(word) => number_in(least, most, word),
    }
}
