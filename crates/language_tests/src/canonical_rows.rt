//! Sources and their canonical texts. Each text is its own canonical text.

use crate::faults_found::LIMITS;
use crate::first_rows::{expect_no_pair, expect_none};
use pipe_format::program::format;
use pipe_lexer::scan::tokens;
use pipe_model::memory::NoMemory;
use pipe_model::tree::Program;
use pipe_parser::parse::{Parsed, parse};
use std::alloc::Global;

// The lines that are the same in each row.
const FIRST_LINE: &str = "limits iterations 1, stages 1, steps 1, emits 1;\n";

// What follows the limits in a source, and in its text.
const PROGRAMS: [(&str, &str); 14] = [
    ("pipe_while(0){}", "pipe_while (0) {\n}\n"),
    ("pipe_while (0) { } // a comment", "pipe_while (0) {\n}\n"),
    (
        "init { } pipe_while (0) { } final { }",
        "pipe_while (0) {\n}\n",
    ),
    (
        "init{emit 1;}pipe_while(0){}",
        "init {\n  emit 1;\n}\npipe_while (0) {\n}\n",
    ),
    (
        "pipe_while(0){}final{emit 1;}",
        "pipe_while (0) {\n}\nfinal {\n  emit 1;\n}\n",
    ),
    (
        "cell n=-0;pipe_while(n){}",
        "cell n = 0;\npipe_while (n) {\n}\n",
    ),
    (
        "cell n = -9223372036854775807; cell a [ 007 ] = 1; pipe_while (0) { }",
        "cell n = -9223372036854775807;\ncell a[7] = 1;\npipe_while (0) {\n}\n",
    ),
    (
        "pipe_while (0) { pipe_wait ( ) ; pipe_continue(1); }",
        "pipe_while (0) {\n  pipe_wait();\n  pipe_continue(1);\n}\n",
    ),
    (
        "pipe_while (0) { if (1) { } }",
        "pipe_while (0) {\n  if (1) {\n  }\n}\n",
    ),
    (
        "pipe_while (0) { if (1) { } else { } }",
        "pipe_while (0) {\n  if (1) {\n  }\n}\n",
    ),
    (
        "pipe_while (0) { if (1) { } else { emit 2; } }",
        "pipe_while (0) {\n  if (1) {\n  } else {\n    emit 2;\n  }\n}\n",
    ),
    (
        "pipe_while (0) { while (iter()) { if (more()) { let x = take(); emit x; } } }",
        "pipe_while (0) {\n  while (iter()) {\n    if (more()) {\n      let x = take();\n      emit x;\n    }\n  }\n}\n",
    ),
    (
        "cell d[2] = 0; pipe_while (d[1]) { d[d[0]+1]=2; }",
        "cell d[2] = 0;\npipe_while (d[1]) {\n  d[d[0] + 1] = 2;\n}\n",
    ),
    (
        "pipe_while (0) { while (0) { } pipe_continue(); pipe_wait(2); }",
        "pipe_while (0) {\n  while (0) {\n  }\n  pipe_continue();\n  pipe_wait(2);\n}\n",
    ),
];

// A program with each part, and its text, which has the limits and the initial values as they were
// given.
const WHOLE: &str =
    "limits iterations 8, stages 4, steps 100, emits 0; cell a[3] = -1; cell n = 9223372036854775807; init { a[0] = 5; } pipe_while (more()) { let t = take(); if (a[0] < 1) { while (n) { } } else { if (n) { } pipe_wait(); } n = -((n + t) * iter()); } final { emit !n; }";

const TEXT_OF_WHOLE: &str =
    "limits iterations 8, stages 4, steps 100, emits 0;\ncell a[3] = -1;\ncell n = 9223372036854775807;\ninit {\n  a[0] = 5;\n}\npipe_while (more()) {\n  let t = take();\n  if (a[0] < 1) {\n    while (n) {\n    }\n  } else {\n    if (n) {\n    }\n    pipe_wait();\n  }\n  n = -((n + t) * iter());\n}\nfinal {\n  emit !n;\n}\n";

// Expressions and their texts. Operators of one level group from the left, and brackets are printed
// only if the grouping needs them.
const EXPRESSIONS: [(&str, &str); 18] = [
    ("((a+b))*c", "(a + b) * c"),
    ("a-(b-c)", "a - (b - c)"),
    ("(a-b)-c", "a - b - c"),
    ("a-b-c", "a - b - c"),
    ("((1+n)+2)<3", "1 + n + 2 < 3"),
    ("(1+(n+2))<3", "1 + (n + 2) < 3"),
    ("(-(a[1]))*(2-(!n))", "-a[1] * (2 - !n)"),
    ("-(a[1]*2)", "-(a[1] * 2)"),
    ("-(-a)", "--a"),
    ("!(!(a))", "!!a"),
    ("-(!a)", "-!a"),
    ("-(a+b)", "-(a + b)"),
    ("(-a)+b", "-a + b"),
    ("a+(-b)", "a + -b"),
    ("d[(a+b)]", "d[a + b]"),
    ("(iter())*(take())", "iter() * take()"),
    ("(((7)))", "7"),
    ("a*(b+c)*d[0]", "a * (b + c) * d[0]"),
];

// The operators, each with its level.
const OPERATORS: [(&str, u32); 13] = [
    ("||", 1),
    ("&&", 2),
    ("==", 3),
    ("!=", 3),
    ("<", 4),
    ("<=", 4),
    (">", 4),
    (">=", 4),
    ("+", 5),
    ("-", 5),
    ("*", 6),
    ("/", 6),
    ("%", 6),
];

// The program of a source, if it is one.
fn program_of(alloc: Global, source: &[u8]) -> Option<Program> {
    let Ok(tokens) = tokens(alloc, source) else {
        return None;
    };
    let parsed = parse(alloc, source, &tokens);
    drop(tokens);
    match parsed {
        Ok(parsed) => {
            let Parsed { program, places } = parsed;
            drop(places);
            Some(program)
        }
        Err(_) => None,
    }
}

fn is_text(alloc: Global, program: &Program, text: &str) -> bool {
    match format(alloc, program) {
        Ok(found) => found.as_slice() == text.as_bytes(),
        Err(NoMemory) => false,
    }
}

// Whether the source is a program of this text.
fn has_text(alloc: Global, source: &str, text: &str) -> bool {
    match program_of(alloc, source.as_bytes()) {
        Some(program) => {
            let found = is_text(alloc, &program, text);
            drop(program);
            found
        }
        None => false,
    }
}

// Whether the source is a program of this text, and the text too.
fn is_canonical(alloc: Global, source: &str, text: &str) -> bool {
    has_text(alloc, source, text) && has_text(alloc, text, text)
}

// Two texts, each made of several.
fn concat_both(
    alloc: Global,
    first: &[&str],
    second: &[&str],
) -> Result<(String, String), NoMemory> {
    let first = first.concat(alloc)?;
    let second = second.concat(alloc)?;
    Ok((first, second))
}

// The same for a source and a text that are made of several.
fn are_canonical(alloc: Global, source: &[&str], text: &[&str]) -> bool {
    match concat_both(alloc, source, text) {
        Ok((source, text)) => is_canonical(alloc, source.as_str(), text.as_str()),
        Err(NoMemory) => false,
    }
}

// The same, where these follow the limits.
fn is_program(alloc: Global, source: &str, text: &str) -> bool {
    are_canonical(alloc, &[LIMITS, source], &[FIRST_LINE, text])
}

// The same for an expression and its text.
fn is_expression(alloc: Global, expression: &str, text: &str) -> bool {
    are_canonical(
        alloc,
        &[LIMITS, "pipe_while(0){emit ", expression, ";}"],
        &[FIRST_LINE, "pipe_while (0) {\n  emit ", text, ";\n}\n"],
    )
}

// The first row that is no program of its text.
fn first_other_program(alloc: Global, rows: &[(&str, &str)]) -> Option<usize> {
    for (index, (source, text)) in rows.iter().enumerate() {
        if !is_program(alloc, source, text) {
            return Some(index);
        }
    }
    None
}

// The first row that is no expression of its text.
fn first_other_expression(alloc: Global, rows: &[(&str, &str)]) -> Option<usize> {
    for (index, (expression, text)) in rows.iter().enumerate() {
        if !is_expression(alloc, expression, text) {
            return Some(index);
        }
    }
    None
}

fn whole_is_canonical(alloc: Global) -> bool {
    is_canonical(alloc, WHOLE, TEXT_OF_WHOLE)
}

fn first_other_of_programs(alloc: Global) -> Option<usize> {
    first_other_program(alloc, &PROGRAMS)
}

fn first_other_of_expressions(alloc: Global) -> Option<usize> {
    first_other_expression(alloc, &EXPRESSIONS)
}

#[test]
fn programs_have_canonical_texts(rt: HostRuntime) {
    assert!(rt; whole_is_canonical(rt.alloc()));
    expect_none(&rt, "PROGRAMS", first_other_of_programs(rt.alloc()));
    expect_none(&rt, "EXPRESSIONS", first_other_of_expressions(rt.alloc()));
}

// Whether an expression with brackets keeps them, or else has the text without them.
fn keeps_brackets(alloc: Global, with: &str, without: &str, needs: bool) -> bool {
    is_expression(alloc, with, if needs { with } else { without })
}

// The same for an expression that is made of several texts.
fn has_brackets(alloc: Global, with: &[&str], without: &[&str], needs: bool) -> bool {
    match concat_both(alloc, with, without) {
        Ok((with, without)) => keeps_brackets(alloc, with.as_str(), without.as_str(), needs),
        Err(NoMemory) => false,
    }
}

// On the left of an operator, another one with its operands has brackets if its level is lower.
fn has_left_brackets(alloc: Global, outer: (&str, u32), inner: (&str, u32)) -> bool {
    has_brackets(
        alloc,
        &["(a ", inner.0, " b) ", outer.0, " c"],
        &["a ", inner.0, " b ", outer.0, " c"],
        inner.1 < outer.1,
    )
}

// On the right it has them if its level is lower or the same.
fn has_right_brackets(alloc: Global, outer: (&str, u32), inner: (&str, u32)) -> bool {
    has_brackets(
        alloc,
        &["c ", outer.0, " (a ", inner.0, " b)"],
        &["c ", outer.0, " a ", inner.0, " b"],
        inner.1 <= outer.1,
    )
}

// The first operator that has other brackets as an operand of `outer`.
fn first_other_operand(
    alloc: Global,
    outer: (&str, u32),
    operators: &[(&str, u32)],
) -> Option<usize> {
    for (index, inner) in operators.iter().enumerate() {
        if !has_left_brackets(alloc, outer, *inner) || !has_right_brackets(alloc, outer, *inner) {
            return Some(index);
        }
    }
    None
}

// The first pair of an operator and another one in its operand that has other brackets.
fn first_other_pair(alloc: Global, operators: &[(&str, u32)]) -> Option<(usize, usize)> {
    for (index, outer) in operators.iter().enumerate() {
        if let Some(inner) = first_other_operand(alloc, *outer, operators) {
            return Some((index, inner));
        }
    }
    None
}

fn first_other_of_operators(alloc: Global) -> Option<(usize, usize)> {
    first_other_pair(alloc, &OPERATORS)
}

#[test]
fn operands_have_the_brackets_that_they_need(rt: HostRuntime) {
    expect_no_pair(&rt, "OPERATORS", first_other_of_operators(rt.alloc()));
}
