//! Inputs with their numbers or their fault.

use pipe_io::input_fault::InputFault;
use pipe_io::numbers::numbers;
use pipe_model::memory::NoMemory;
use std::alloc::Global;

const LONGEST_INPUT: usize = 16_777_216;

const MOST_NUMBERS: usize = 1_048_576;

// An input, and its numbers or its fault with the offset.
const INPUTS: [(&[u8], &str); 37] = [
    (b"", ""),
    (b" \t\r\n", ""),
    (b" 1 ", "1 "),
    (b"1 2\t3\r4\n5", "1 2 3 4 5 "),
    (b"1\r\n\r\n2\r\n", "1 2 "),
    (b"-1 -2", "-1 -2 "),
    (b"-0", "0 "),
    (b"0 00 -00", "0 0 0 "),
    (b"007", "7 "),
    (b"-007", "-7 "),
    (b"00000000000000000000000000000001", "1 "),
    (b"9223372036854775807", "9223372036854775807 "),
    (b"-9223372036854775808", "-9223372036854775808 "),
    (b"9223372036854775808", "TooWide(0)"),
    (b"-9223372036854775809", "TooWide(0)"),
    (b" -9223372036854775809", "TooWide(1)"),
    (b"1 9223372036854775808 x", "TooWide(2)"),
    (b"99999999999999999999x", "TooWide(0)"),
    (b"x 99999999999999999999", "BadByte(0)"),
    (b"9223372036854775807x", "BadByte(19)"),
    (b"-", "BadByte(1)"),
    (b"--1", "BadByte(1)"),
    (b"7 -", "BadByte(3)"),
    (b"7 - 8", "BadByte(3)"),
    (b"7 -x", "BadByte(3)"),
    (b"12-8", "BadByte(2)"),
    (b"1--8", "BadByte(1)"),
    (b"+1", "BadByte(0)"),
    (b"1 2 x", "BadByte(4)"),
    (b"1x2", "BadByte(1)"),
    (b"12x", "BadByte(2)"),
    (b"1,2", "BadByte(1)"),
    (b"1.5", "BadByte(1)"),
    (b"1e3", "BadByte(1)"),
    (b"1\x0b2", "BadByte(1)"),
    (b"\x002", "BadByte(0)"),
    (b"1 \xff", "BadByte(2)"),
];

fn push_numbers(text: &mut String, numbers: &[i64]) -> Result<(), NoMemory> {
    for number in numbers {
        write!(text, "{number} ")?;
    }
    Ok(())
}

// Appends the numbers of an input, or its fault.
fn push_listed(text: &mut String, alloc: Global, input: &[u8]) -> Result<(), NoMemory> {
    match numbers(alloc, input) {
        Err(fault) => Ok(write!(text, "{fault:?}")?),
        Ok(found) => push_numbers(text, found.as_slice()),
    }
}

// Whether an input has these numbers, or this fault.
fn is_listed(alloc: Global, input: &[u8], wanted: &str) -> bool {
    let mut text = String::new(alloc);
    push_listed(&mut text, alloc, input) == Ok(()) && text.as_str() == wanted
}

// The first input with other numbers, or another fault.
fn first_other_input(alloc: Global, inputs: &[(&[u8], &str)]) -> Option<usize> {
    for (index, (input, wanted)) in inputs.iter().enumerate() {
        if !is_listed(alloc, input, wanted) {
            return Some(index);
        }
    }
    None
}

fn first_other_of_inputs(alloc: Global) -> Option<usize> {
    first_other_input(alloc, &INPUTS)
}

#[test]
fn inputs_have_their_numbers(rt: HostRuntime) {
    let other = first_other_of_inputs(rt.alloc());
    assert!(rt; other.is_none(), "{other:?}");
}

// A number of zeros, each with a space after it, then another text, and how many numbers or what fault
// there is in all of it.
const ZEROS: [(usize, &[u8], Result<usize, InputFault>); 4] = [
    // The most numbers are read, and number 1,048,577 is one too many.
    (MOST_NUMBERS, b"", Ok(MOST_NUMBERS)),
    (MOST_NUMBERS + 1, b"", Err(InputFault::TooMany(2_097_152))),
    // One number too many counts before its width, but a bare minus sign is no number.
    (
        MOST_NUMBERS,
        b"99999999999999999999",
        Err(InputFault::TooMany(2_097_152)),
    ),
    (MOST_NUMBERS, b"-", Err(InputFault::BadByte(2_097_153))),
];

fn zeros(alloc: Global, count: usize, last: &[u8]) -> Result<Vec<u8>, NoMemory> {
    let mut input = Vec::new(alloc);
    for _ in 0..count {
        input.extend_from_slice(b"0 ")?;
    }
    input.extend_from_slice(last)?;
    Ok(input)
}

// How many numbers an input has, or its fault.
fn number_count(alloc: Global, input: &[u8]) -> Result<usize, InputFault> {
    match numbers(alloc, input) {
        Ok(found) => Ok(found.len()),
        Err(fault) => Err(fault),
    }
}

// Whether these zeros and the text have this number of numbers, or this fault.
fn zeros_are(alloc: Global, count: usize, last: &[u8], wanted: Result<usize, InputFault>) -> bool {
    match zeros(alloc, count, last) {
        Ok(input) => number_count(alloc, input.as_slice()) == wanted,
        Err(NoMemory) => false,
    }
}

// The first row with another number of numbers, or another fault.
fn first_other_zeros(alloc: Global) -> Option<usize> {
    for (index, (count, last, wanted)) in ZEROS.iter().enumerate() {
        if !zeros_are(alloc, *count, last, *wanted) {
            return Some(index);
        }
    }
    None
}

#[test]
fn numbers_are_counted(rt: HostRuntime) {
    let other = first_other_zeros(rt.alloc());
    assert!(rt; other.is_none(), "{other:?}");
}

// Whether an input of spaces has this number of numbers, or this fault.
fn spaces_are(alloc: Global, count: usize, wanted: Result<usize, InputFault>) -> bool {
    match Vec::from_elem(alloc, b' ', count) {
        Ok(input) => number_count(alloc, input.as_slice()) == wanted,
        Err(_) => false,
    }
}

// The longest input is read, and one more byte is too long.
#[test]
fn bytes_are_counted(rt: HostRuntime) {
    assert!(rt; spaces_are(rt.alloc(), LONGEST_INPUT, Ok(0)));
    assert!(rt; spaces_are(rt.alloc(), LONGEST_INPUT + 1, Err(InputFault::TooLong)));
}
