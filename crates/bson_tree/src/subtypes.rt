//! Subtypes of binaries (BSON 1.1, "subtype").

/// A UUID.
pub const UUID: u8 = 0x04;
/// An encrypted value, or the marking of one.
pub const ENCRYPTED: u8 = 0x06;
