//! Operators in their table.

use crate::first_rows::expect_none;
use op_table::operators::OPS;
use op_table::table::OpTable;

// Bytes, and the symbol and the level of the longest operator with which they begin; a greater
// level binds more tightly. No operator has the code 0.
const PREFIXES: [(&str, &str, Option<u8>); 12] = [
    ("<=x", "<=", Some(4)),
    ("<x", "<", Some(4)),
    ("< =", "<", Some(4)),
    ("=x", "", None),
    ("", "", None),
    ("|", "", None),
    ("&&&", "&&", Some(2)),
    ("! =", "", None),
    ("===", "==", Some(3)),
    ("%=", "%", Some(6)),
    ("x+", "", None),
    (" +", "", None),
];

// Whether these are the symbol and the level of the longest operator of a table with which the bytes
// begin.
fn is_prefix(table: &OpTable<13>, bytes: &str, symbol: &str, level: Option<u8>) -> bool {
    let code = table.find(bytes.as_bytes()).unwrap_or(0);
    match table.row(code) {
        Some(row) => row.text() == symbol.as_bytes() && Some(row.level) == level,
        None => symbol.is_empty() && level.is_none(),
    }
}

// The first row that has another operator.
fn first_other(table: &OpTable<13>, rows: &[(&str, &str, Option<u8>)]) -> Option<usize> {
    for (index, (bytes, symbol, level)) in rows.iter().enumerate() {
        if !is_prefix(table, bytes, symbol, *level) {
            return Some(index);
        }
    }
    None
}

fn first_other_of_all() -> Option<usize> {
    first_other(&OPS, &PREFIXES)
}

#[test]
fn bytes_begin_with_operators(rt: HostRuntime) {
    expect_none(&rt, "PREFIXES", first_other_of_all());
    assert!(rt; !is_code(14) && !is_code(255));
}

fn is_code(code: u8) -> bool {
    OPS.row(code).is_some()
}
