//! Levels of precedence. A greater level binds more tightly; binary operators have 1 to 6.

/// The level of any expression: the level of the operator that binds most loosely.
pub const ANY_EXPRESSION: u8 = 1;
/// The level of operands, which bind more tightly than each binary operator.
pub const OPERAND: u8 = 7;
