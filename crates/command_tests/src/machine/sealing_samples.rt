//! A file of infos, and commands with what they are sealed to: written by a plain program of BSON's grammar, and sealed
//! by Python's hmac and OpenSSL's AES-256-CBC.

use encrypt_schema::Infos;
use sample_documents::{
    BOTH, INSERT, INTO_UNKNOWN, INTO_VIEW, NULL, OTHER_DB, PING, SEALED_BOTH, SEALED_INSERT,
};
use std::alloc::Global;

/// Another id of a key, the UUID 10111213-1415-4617-9819-1a1b1c1d1e1f.
pub(crate) const SECOND_ID: [u8; 16] = [
    0x10, 0x11, 0x12, 0x13, 0x14, 0x15, 0x46, 0x17, 0x98, 0x19, 0x1a, 0x1b, 0x1c, 0x1d, 0x1e, 0x1f,
];

/// The infos of `people` (`ssn` deterministic, `salary` random), `staff`, `notes` and the view `v`, up to the id of
/// `salary`'s key.
const INFOS_FRONT: &[u8; 308] =
    b"\x80\x01\x00\x00\x02name\x00\x07\x00\x00\x00people\x00\x02type\x00\x0b\x00\x00\x00collection\x00\x03options\x00L\
    \x01\x00\x00\x03validator\x00<\x01\x00\x00\x03$jsonSchema\x00*\x01\x00\x00\x02bsonType\x00\x07\x00\x00\x00object\
    \x00\x03properties\x00\x04\x01\x00\x00\x03ssn\x00\x87\x00\x00\x00\x03encrypt\x00y\x00\x00\x00\x04keyId\x00\x1d\
    \x00\x00\x00\x050\x00\x10\x00\x00\x00\x04\x00\x11\"3DUFw\x88\x99\xaa\xbb\xcc\xdd\xee\xff\x00\x02algorithm\x00,\
    \x00\x00\x00AEAD_AES_256_CBC_HMAC_SHA_512-Deterministic\x00\x02bsonType\x00\x07\x00\x00\x00string\x00\x00\x00\
    \x03salary\x00k\x00\x00\x00\x03encrypt\x00]\x00\x00\x00\x04keyId\x00\x1d\x00\x00\x00\x050\x00\x10\x00\x00\x00\
    \x04";

/// What stands behind that id.
const INFOS_REST: &[u8; 472] =
    b"\x00\x02algorithm\x00%\x00\x00\x00AEAD_AES_256_CBC_HMAC_SHA_512-Random\x00\x00\x00\x00\x00\x00\x00\x006\x01\x00\
    \x00\x02name\x00\x06\x00\x00\x00staff\x00\x02type\x00\x0b\x00\x00\x00collection\x00\x03options\x00\x03\x01\x00\
    \x00\x03validator\x00\xf3\x00\x00\x00\x03$jsonSchema\x00\xe1\x00\x00\x00\x03properties\x00\xd0\x00\x00\x00\x03a\
    \x00\xc8\x00\x00\x00\x02bsonType\x00\x07\x00\x00\x00object\x00\x03encryptMetadata\x00d\x00\x00\x00\x04keyId\x00\
    \x1d\x00\x00\x00\x050\x00\x10\x00\x00\x00\x04\x00\x11\"3DUFw\x88\x99\xaa\xbb\xcc\xdd\xee\xff\x00\x02algorithm\
    \x00,\x00\x00\x00AEAD_AES_256_CBC_HMAC_SHA_512-Deterministic\x00\x00\x03properties\x00-\x00\x00\x00\x03b\x00%\
    \x00\x00\x00\x03encrypt\x00\x17\x00\x00\x00\x02bsonType\x00\x04\x00\x00\x00int\x00\x00\x00\x00\x00\x00\x00\x00\
    \x00\x008\x00\x00\x00\x02name\x00\x06\x00\x00\x00notes\x00\x02type\x00\x0b\x00\x00\x00collection\x00\x03options\
    \x00\x05\x00\x00\x00\x00\x00.\x00\x00\x00\x02name\x00\x02\x00\x00\x00v\x00\x02type\x00\x05\x00\x00\x00view\x00\
    \x03options\x00\x05\x00\x00\x00\x00\x00";

/// The same where the key of `salary` has the second id.
const TWO_KEYS_SEALED: &[u8; 366] =
    b"n\x01\x00\x00\x02insert\x00\x07\x00\x00\x00people\x00\x04documents\x00?\x01\x00\x00\x030\x00d\x00\x00\x00\x05sal\
    ary\x00R\x00\x00\x00\x06\x02\x10\x11\x12\x13\x14\x15F\x17\x98\x19\x1a\x1b\x1c\x1d\x1e\x1f\x10\x01\x01\x01\x01\
    \x01\x01\x01\x01\x01\x01\x01\x01\x01\x01\x01\x01\xb8\x11\xbf\xe9\xa2\x81\x17\xdfo5H!\xdcl\x0e\x91v\xf9\x0e\x95\
    \xd6\xef9B\x1eq\xc2\xfd\xba\xc9\xcen\"\xfbc\xf3E\x90\xd7#\xf8\x1f`u\x17I\x84\xac\x00\x031\x00\xd0\x00\x00\x00\
    \x05ssn\x00b\x00\x00\x00\x06\x01\x00\x11\"3DUFw\x88\x99\xaa\xbb\xcc\xdd\xee\xff\x02N:J;\xc6L\\I\x96\x01\xbe\xff\
    \xad\x19\xd3\xc2a\xa5\x9f\xe4zf\xa6\xd8b\x8e\xc3\x0e\x92\x07L\xb1\xd4\xeap\xd8\x0fa\x15.{w\xb8\xbb\xc48u\xcfVl\
    \x13\xfa\xfa\x1fG>\xa4\xafG\x0aR\x93\xdb7\xb7\x11\x10ug|y\xc4\xc0{\xa0O\xc1b\x10\x0b\x05salary\x00R\x00\x00\x00\
    \x06\x02\x10\x11\x12\x13\x14\x15F\x17\x98\x19\x1a\x1b\x1c\x1d\x1e\x1f\x10\x02\x02\x02\x02\x02\x02\x02\x02\x02\
    \x02\x02\x02\x02\x02\x02\x02r0\xfd\x0f\x80\xc4\xfc\x13PqW\xec@b$/mm\x9a\x02\x17\x84\xfe\xcc\xc3\x1f\xd1_\xe1i\
    \x00E\x8a\xf0j\xdd6\xf0\xf0\xfc\x13\x17\x7f\xd1\xd1\xdb\xc4\xa6\x00\x00\x02$db\x00\x03\x00\x00\x00hr\x00\x00";

/// The infos, where the key of `salary` has this id; `None` where they couldn't be read.
pub(crate) fn infos(alloc: Global, id: [u8; 16]) -> Option<Infos> {
    let mut file = Vec::new(alloc);
    file.extend_from_slice(INFOS_FRONT).ok()?;
    file.extend_from_slice(&id).ok()?;
    file.extend_from_slice(INFOS_REST).ok()?;
    if file.len() > 10_000 {
        return None;
    }
    Infos::load(alloc, &file).ok()
}

/// A command with one protected value.
pub(crate) fn one_string() -> &'static [u8; 88] {
    INSERT
}

/// A command with three, in two documents.
pub(crate) fn two_documents() -> &'static [u8; 113] {
    BOTH
}

/// A command that stores null in a protected field.
pub(crate) fn null_stored() -> &'static [u8; 65] {
    NULL
}

/// A command on a view.
pub(crate) fn into_a_view() -> &'static [u8; 62] {
    INTO_VIEW
}

/// A command on a collection without an info.
pub(crate) fn unknown() -> &'static [u8; 72] {
    INTO_UNKNOWN
}

/// A command that nothing is sealed of.
pub(crate) fn ping() -> &'static [u8; 30] {
    PING
}

/// A command that names another database.
pub(crate) fn wrong_db() -> &'static [u8; 51] {
    OTHER_DB
}

/// Whether these bytes are what the command with one protected value is sealed to.
pub(crate) fn is_one_string_sealed(bytes: &[u8]) -> bool {
    bytes == SEALED_INSERT.as_slice()
}

/// Whether these bytes are what the command with three is sealed to with the blocks of 01 and of 02.
pub(crate) fn is_two_documents_sealed(bytes: &[u8]) -> bool {
    bytes == SEALED_BOTH.as_slice()
}

/// The same where the key of `salary` has the second id.
pub(crate) fn is_two_keys_sealed(bytes: &[u8]) -> bool {
    bytes == TWO_KEYS_SEALED.as_slice()
}
