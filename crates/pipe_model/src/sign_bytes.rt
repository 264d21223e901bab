//! The signs of the language by their bytes.

/// `!`
pub const EXCLAMATION: u8 = b'!';
/// `(`
pub const OPEN_ROUND: u8 = b'(';
/// `)`
pub const CLOSE_ROUND: u8 = b')';
/// `,`
pub const COMMA: u8 = b',';
/// `;`
pub const SEMICOLON: u8 = b';';
/// `=`
pub const EQUALS: u8 = b'=';
/// `[`
pub const OPEN_SQUARE: u8 = b'[';
/// `]`
pub const CLOSE_SQUARE: u8 = b']';
/// `{`
pub const OPEN_BRACE: u8 = b'{';
/// `}`
pub const CLOSE_BRACE: u8 = b'}';
