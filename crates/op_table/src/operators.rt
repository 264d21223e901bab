//! The operators of the language.

use crate::table::{OpRow, OpTable};

/// Passes the operators to the macro `$then`, after its own arguments in round brackets. Each
/// operator has its code, the two bytes of its symbol, how many of them count, and its level;
/// `$then` writes one arm or one row for each. To add an operator, add a line here.
#[macro_export]
macro_rules! operators {
    ($then:ident $(, $argument:expr)*) => {
        $then! {
            ($($argument),*)
            1 b"||" 2 1;
            2 b"&&" 2 2;
            3 b"==" 2 3;
            4 b"!=" 2 3;
            5 b"<\0" 1 4;
            6 b"<=" 2 4;
            7 b">\0" 1 4;
            8 b">=" 2 4;
            9 b"+\0" 1 5;
            10 b"-\0" 1 5;
            11 b"*\0" 1 6;
            12 b"/\0" 1 6;
            13 b"%\0" 1 6;
        }
    };
}

macro_rules! table_rows {
    (() $($code:literal $symbol:literal $length:literal $level:literal;)*) => {
        [$(OpRow { symbol: *$symbol, length: $length, level: $level, code: $code }),*]
    };
}

/// The binary operators of the language.
pub const OPS: OpTable<13> = OpTable {
    rows: operators!(table_rows),
};
