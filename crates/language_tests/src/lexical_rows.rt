//! Sources with their tokens or their first lexical fault.

use crate::faults_found::{Faulty, LIMITS, first_other, texts_have_fault};
use crate::first_rows::{expect_no_pair, expect_none};
use pipe_lexer::fault::LexFault;
use pipe_lexer::scan::tokens;
use pipe_model::memory::NoMemory;
use pipe_model::token::{Token, TokenKind};
use std::alloc::Global;

const LONGEST_SOURCE: usize = 1_048_576;

// A source, and its tokens with offset and length, or its fault. Words are counted from 0, and
// operators have codes from 1.
const TOKENS: [(&[u8], &str); 36] = [
    (b"", ""),
    (b" \t\r\n", ""),
    (b"12ab", "Number(12) 0+2; Name 2+2; "),
    (b"a // b", "Name 0+1; "),
    (b"//\x00\xff\r@&\n7", "Number(7) 8+1; "),
    (b"007 00", "Number(7) 0+3; Number(0) 4+2; "),
    (
        b"09223372036854775807",
        "Number(9223372036854775807) 0+20; ",
    ),
    (b"_ a_1 Z", "Name 0+1; Name 2+3; Name 6+1; "),
    (b"lets let", "Name 0+4; Word(12) 5+3; "),
    (&[b'a'; 64], "Name 0+64; "),
    (b"= ===", "Sign(61) 0+1; Operator(3) 2+2; Sign(61) 4+1; "),
    (b"! !==", "Sign(33) 0+1; Operator(4) 2+2; Sign(61) 4+1; "),
    (b"--x", "Operator(10) 0+1; Operator(10) 1+1; Name 2+1; "),
    (
        b"/ a/b",
        "Operator(12) 0+1; Name 2+1; Operator(12) 3+1; Name 4+1; ",
    ),
    (b"a//b", "Name 0+1; "),
    (b"a///", "Name 0+1; "),
    (
        b"/ /*",
        "Operator(12) 0+1; Operator(12) 2+1; Operator(11) 3+1; ",
    ),
    (b"<<=", "Operator(5) 0+1; Operator(6) 1+2; "),
    (b">>=", "Operator(7) 0+1; Operator(8) 1+2; "),
    (b"||&&", "Operator(1) 0+2; Operator(2) 2+2; "),
    (b"+%", "Operator(9) 0+1; Operator(13) 1+1; "),
    (b"({[", "Sign(40) 0+1; Sign(123) 1+1; Sign(91) 2+1; "),
    (
        b"]});",
        "Sign(93) 0+1; Sign(125) 1+1; Sign(41) 2+1; Sign(59) 3+1; ",
    ),
    (b",", "Sign(44) 0+1; "),
    (b"@", "BadByte(0)"),
    (b"&", "BadByte(0)"),
    (b"|", "BadByte(0)"),
    (b"a & b", "BadByte(2)"),
    (b"&&&", "BadByte(2)"),
    (b" \xff", "BadByte(1)"),
    (b"\x0b", "BadByte(0)"),
    (b"a.b", "BadByte(1)"),
    (b"99999999999999999999 @", "TooWide(0)"),
    (b"@ 99999999999999999999", "BadByte(0)"),
    (&[b'a'; 65], "NameTooLong(0)"),
    (&[b'_'; 100], "NameTooLong(0)"),
];

// Tokens as text.
fn listed(alloc: Global, tokens: &[Token]) -> Result<String, NoMemory> {
    let mut text = String::new(alloc);
    for token in tokens {
        write!(text, "{:?} {}+{}; ", token.kind, token.place, token.length)?;
    }
    Ok(text)
}

// The tokens of a source, or its fault.
fn scanned(alloc: Global, source: &[u8]) -> Result<String, NoMemory> {
    match tokens(alloc, source) {
        Err(fault) => Ok(format!(in alloc; "{fault:?}")?),
        Ok(tokens) => listed(alloc, tokens.as_slice()),
    }
}

fn is_scanned(alloc: Global, source: &[u8], expected: &str) -> bool {
    match scanned(alloc, source) {
        Ok(found) => found.as_str() == expected,
        Err(NoMemory) => false,
    }
}

// The first row with other tokens, or another fault.
fn first_other_row(alloc: Global, rows: &[(&[u8], &str)]) -> Option<usize> {
    for (index, (source, expected)) in rows.iter().enumerate() {
        if !is_scanned(alloc, source, expected) {
            return Some(index);
        }
    }
    None
}

fn first_other_of_tokens(alloc: Global) -> Option<usize> {
    first_other_row(alloc, &TOKENS)
}

#[test]
fn sources_have_their_tokens(rt: HostRuntime) {
    expect_none(&rt, "TOKENS", first_other_of_tokens(rt.alloc()));
}

const WORDS: &str =
    "version limits iterations stages steps emits cell init pipe_while pipe_wait pipe_continue final let if else while emit more take iter input output";

// Whether a token is the reserved word of this number.
fn is_word(token: &Token, number: usize) -> bool {
    match token.kind {
        TokenKind::Word(word) => usize::from(word) == number,
        _ => false,
    }
}

// Whether these are the tokens of all reserved words, in the order of their numbers.
fn are_all_words(tokens: &[Token]) -> bool {
    for (number, token) in tokens.iter().enumerate() {
        if !is_word(token, number) {
            return false;
        }
    }
    tokens.len() == 22
}

fn are_words(alloc: Global, source: &str) -> bool {
    match tokens(alloc, source.as_bytes()) {
        Ok(found) => are_all_words(found.as_slice()),
        Err(_) => false,
    }
}

// Whether no local may have this name.
fn is_no_name(alloc: Global, word: &str) -> bool {
    texts_have_fault(
        alloc,
        "Unexpected",
        &[LIMITS, "pipe_while (0) { let @", word, " = 1; }"],
    )
}

// The first of some words, with blanks between them, that may be a name.
fn first_name(alloc: Global, words: &str) -> Option<usize> {
    for (index, word) in words.split(' ').enumerate() {
        if !is_no_name(alloc, word) {
            return Some(index);
        }
    }
    None
}

// A reserved word is a token of its own kind, and no name.
#[test]
fn reserved_words_are_no_names(rt: HostRuntime) {
    assert!(rt; are_words(rt.alloc(), WORDS));
    expect_none(&rt, "WORDS", first_name(rt.alloc(), WORDS));
}

static LEXICAL: [Faulty; 3] = [
    Faulty {
        kind: "BadByte",
        before: "",
        rows: &["version @#", "// x\n@#"],
        after: "",
    },
    Faulty {
        kind: "BadByte",
        before: LIMITS,
        rows: &[
            "pipe_while (@$) { }",
            "pipe_while (1 @& 1) { }",
            "pipe_while (0) { } @#",
        ],
        after: "",
    },
    Faulty {
        kind: "TooWide",
        before: "",
        rows: &[
            "limits iterations @9223372036854775808",
            "cell n = -@9223372036854775808;",
        ],
        after: "",
    },
];

fn first_other_of_lexical(alloc: Global) -> Option<(usize, usize)> {
    first_other(alloc, &LEXICAL)
}

// A lexical fault counts before each fault of the syntax, even if it comes later in the text.
#[test]
fn lexical_faults_come_first(rt: HostRuntime) {
    expect_no_pair(&rt, "LEXICAL", first_other_of_lexical(rt.alloc()));
}

// The number of tokens of a source, or its fault.
fn token_count(alloc: Global, source: &[u8]) -> Result<usize, LexFault> {
    match tokens(alloc, source) {
        Ok(found) => Ok(found.len()),
        Err(fault) => Err(fault),
    }
}

// Whether a source that repeats a byte has this number of tokens, or this fault.
fn has_count(alloc: Global, byte: u8, count: usize, wanted: Result<usize, LexFault>) -> bool {
    match Vec::from_elem(alloc, byte, count) {
        Ok(source) => token_count(alloc, source.as_slice()) == wanted,
        Err(_) => false,
    }
}

#[test]
fn the_longest_source_has_2_to_the_20_bytes(rt: HostRuntime) {
    let too_long = Err(LexFault::SourceTooLong);
    assert!(rt; has_count(rt.alloc(), b' ', LONGEST_SOURCE, Ok(0)));
    assert!(rt; has_count(rt.alloc(), b'@', LONGEST_SOURCE + 1, too_long));
}
