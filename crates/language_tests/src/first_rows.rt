//! Tests that fail at a row.

use std::process::Abort;

/// Fails the test if there is a row of a table that is otherwise, and prints the table and the row's number.
pub fn expect_none(rt: &impl Abort, table: &str, row: Option<usize>) {
    assert!(rt; row.is_none(), "{table}: {row:?}");
}

/// The same for the number of a kind of rows, and that of a row.
pub fn expect_no_pair(rt: &impl Abort, table: &str, row: Option<(usize, usize)>) {
    assert!(rt; row.is_none(), "{table}: {row:?}");
}
