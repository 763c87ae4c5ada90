//! Parts of replies to `INSERT` (MongoDB Client Side Encryption): elements of a reply, a marking and its fields, right
//! and wrong. They were made from the layout of commands and markings outside this code.

/// The first flag, set.
pub const FIRST: &[u8] = b"\x08hasEncryptionPlaceholders\x00\x01";

/// The first flag, not set.
pub const FIRST_OFF: &[u8] = b"\x08hasEncryptionPlaceholders\x00\x00";

/// `hasEncryptionPlaceholders: int 1`
pub const FIRST_INT: &[u8] = b"\x10hasEncryptionPlaceholders\x00\x01\x00\x00\x00";

/// `hasEncryptionPlaceholders: null`
pub const FIRST_NULL: &[u8] = b"\x0ahasEncryptionPlaceholders\x00";

/// `hasEncryptionPlaceholder: false`, a name without its last letter.
pub const FIRST_CUT: &[u8] = b"\x08hasEncryptionPlaceholder\x00\x00";

/// The second flag, set.
pub const SECOND: &[u8] = b"\x08schemaRequiresEncryption\x00\x01";

/// The second flag, not set.
pub const SECOND_OFF: &[u8] = b"\x08schemaRequiresEncryption\x00\x00";

/// `schemaRequiresEncryption: int 1`
pub const SECOND_INT: &[u8] = b"\x10schemaRequiresEncryption\x00\x01\x00\x00\x00";

/// `schemaRequiresEncryption: "y"`
pub const SECOND_TEXT: &[u8] = b"\x02schemaRequiresEncryption\x00\x02\x00\x00\x00y\x00";

/// `ok: 1.0`
pub const OK: &[u8] = b"\x01ok\x00\x00\x00\x00\x00\x00\x00\xf0?";

/// `n: int 1`
pub const N: &[u8] = b"\x10n\x00\x01\x00\x00\x00";

/// The right result of `INSERT` where `people` has its rules, 142 bytes: a marking stands for `ssn`.
pub const RESULT: &[u8] =
    b"\x03result\x00\x86\x00\x00\x00\x02insert\x00\x07\x00\x00\x00people\x00\x04documents\x00W\x00\x00\x00\x030\x00O\
    \x00\x00\x00\x05ssn\x009\x00\x00\x00\x06\x008\x00\x00\x00\x02v\x00\x0c\x00\x00\x00123-45-6789\x00\x10a\x00\x01\
    \x00\x00\x00\x05ki\x00\x10\x00\x00\x00\x04\x00\x11\"3DUFw\x88\x99\xaa\xbb\xcc\xdd\xee\xff\x00\x10n\x00\x01\x00\
    \x00\x00\x00\x00\x02$db\x00\x03\x00\x00\x00hr\x00\x00";

/// `ssn: "123-45-6789"` with its marking, 67 bytes.
pub const MARKED_SSN: &[u8] =
    b"\x05ssn\x009\x00\x00\x00\x06\x008\x00\x00\x00\x02v\x00\x0c\x00\x00\x00123-45-6789\x00\x10a\x00\x01\x00\x00\x00\
    \x05ki\x00\x10\x00\x00\x00\x04\x00\x11\"3DUFw\x88\x99\xaa\xbb\xcc\xdd\xee\xff\x00";

/// `salary: int 7` with its marking, under the random algorithm, 58 bytes.
pub const MARKED_SALARY: &[u8] =
    b"\x05salary\x00-\x00\x00\x00\x06\x00,\x00\x00\x00\x10v\x00\x07\x00\x00\x00\x10a\x00\x02\x00\x00\x00\x05ki\x00\
    \x10\x00\x00\x00\x04\x00\x11\"3DUFw\x88\x99\xaa\xbb\xcc\xdd\xee\xff\x00";

/// The value in the marking of `ssn`.
pub const V: &[u8] = b"\x02v\x00\x0c\x00\x00\x00123-45-6789\x00";

/// Its algorithm.
pub const A: &[u8] = b"\x10a\x00\x01\x00\x00\x00";

/// The id of its key.
pub const KI: &[u8] =
    b"\x05ki\x00\x10\x00\x00\x00\x04\x00\x11\"3DUFw\x88\x99\xaa\xbb\xcc\xdd\xee\xff";

/// The id of another key.
pub const OTHER_KI: &[u8] =
    b"\x05ki\x00\x10\x00\x00\x00\x04\x00\x11\"3DUFw\x88\x99\xaa\xbb\xcc\xdd\xee\xfe";

/// The same bytes as a binary of subtype 03.
pub const OLD_KI: &[u8] =
    b"\x05ki\x00\x10\x00\x00\x00\x03\x00\x11\"3DUFw\x88\x99\xaa\xbb\xcc\xdd\xee\xff";

/// An id of 15 bytes.
pub const SHORT_KI: &[u8] =
    b"\x05ki\x00\x0f\x00\x00\x00\x04\x00\x11\"3DUFw\x88\x99\xaa\xbb\xcc\xdd\xee";

/// The id under another name.
pub const KJ: &[u8] =
    b"\x05kj\x00\x10\x00\x00\x00\x04\x00\x11\"3DUFw\x88\x99\xaa\xbb\xcc\xdd\xee\xff";
