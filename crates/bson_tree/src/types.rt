//! Type bytes of values (BSON 1.1, "element").

/// A 64-bit binary floating point number.
pub const DOUBLE: u8 = 0x01;
/// A UTF-8 string.
pub const STRING: u8 = 0x02;
/// An embedded document.
pub const DOCUMENT: u8 = 0x03;
/// An array.
pub const ARRAY: u8 = 0x04;
/// Binary data.
pub const BINARY: u8 = 0x05;
/// Undefined.
pub const UNDEFINED: u8 = 0x06;
/// An object id.
pub const OBJECT_ID: u8 = 0x07;
/// A boolean.
pub const BOOL: u8 = 0x08;
/// A date: milliseconds since 1970.
pub const DATE: u8 = 0x09;
/// Null.
pub const NULL: u8 = 0x0A;
/// A regular expression.
pub const REGEX: u8 = 0x0B;
/// A pointer into a database.
pub const DB_POINTER: u8 = 0x0C;
/// JavaScript code.
pub const CODE: u8 = 0x0D;
/// A symbol.
pub const SYMBOL: u8 = 0x0E;
/// JavaScript code with a scope.
pub const CODE_WITH_SCOPE: u8 = 0x0F;
/// A 32-bit integer.
pub const INT: u8 = 0x10;
/// A timestamp.
pub const TIMESTAMP: u8 = 0x11;
/// A 64-bit integer.
pub const LONG: u8 = 0x12;
/// A 128-bit decimal floating point number.
pub const DECIMAL: u8 = 0x13;
/// The maximal key.
pub const MAX_KEY: u8 = 0x7F;
/// The minimal key.
pub const MIN_KEY: u8 = 0xFF;
