//! The reserved words.

ghost use Rattle.std.specs.Prelude.{◌≡◌, ◌<◌, [], IfSome, length, position, slice_index_or};
ghost use Rattle.std.specs.Str.{bytes_eq};
ghost use Rattle.pipe_model.specs.Language.Lexis.{reserved_words};

const RESERVED_WORDS: [&[u8]; 22] = [
    b"version",
    b"limits",
    b"iterations",
    b"stages",
    b"steps",
    b"emits",
    b"cell",
    b"init",
    b"pipe_while",
    b"pipe_wait",
    b"pipe_continue",
    b"final",
    b"let",
    b"if",
    b"else",
    b"while",
    b"emit",
    b"more",
    b"take",
    b"iter",
    b"input",
    b"output",
];

// The reserved word at an index of their list.
fn word_at(place: usize) -> &'static [u8]
    requires { place < length reserved_words }
    ensures { result.now ≡ slice_index_or reserved_words place [] }
{
    RESERVED_WORDS[place]
}

/// Returns the index of a text in the list of reserved words, from 0; `None` if it is no reserved
/// word.
pub fn reserved_place(text: &[u8]) -> Option<u8>
    ensures { result ≡ position (λ word. bytes_eq word text.now) reserved_words }
{
    for place in 0..RESERVED_WORDS.len() {
        if word_at(place) == text {
            return Some(place as u8);
        }
    }
    None
}
