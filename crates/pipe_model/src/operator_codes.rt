//! Codes of operators: the binary ones from 1 on, in the order of the operator table, and the
//! unary ones, also from 1 on.

/// `||`
pub const OR: u8 = 1;
/// `&&`
pub const AND: u8 = 2;
/// `==`
pub const EQUAL: u8 = 3;
/// `!=`
pub const UNEQUAL: u8 = 4;
/// `<`
pub const LESS: u8 = 5;
/// `<=`
pub const AT_MOST: u8 = 6;
/// `>`
pub const GREATER: u8 = 7;
/// `>=`
pub const AT_LEAST: u8 = 8;
/// `+`
pub const PLUS: u8 = 9;
/// `-` between two operands, and as the symbol of the negative
pub const MINUS: u8 = 10;
/// `*`
pub const TIMES: u8 = 11;
/// `/`
pub const QUOTIENT: u8 = 12;
/// `%`
pub const REMAINDER: u8 = 13;

/// `-` before an operand
pub const NEGATIVE: u8 = 1;
/// `!` before an operand
pub const NOT: u8 = 2;
