//! Right replies of a marking service in parts (MongoDB Client Side Encryption), made from the layout of commands and
//! markings outside this code, and what is put together from such parts.

use crate::pair_tests::answers;
use crate::runs::{document, joined};
use crate::size_tests::insert_of;
use fle_stream::Status;
use sample_documents::reply_parts::{FIRST, OK, SECOND};
use sample_documents::{INSERT, SEALED_INSERT};
use std::alloc::Global;
use std::process::Abort;

/// The type and the name of a result.
pub(crate) const RESULT_NAME: &[u8] = b"\x03result\x00";

/// `ssn: "123-45-6789"`
pub(crate) const SSN: &[u8] = b"\x02ssn\x00\x0c\x00\x00\x00123-45-6789\x00";

/// It sealed, by Python's hmac and `cryptography`.
pub(crate) const SEALED_SSN: &[u8] =
    b"\x05ssn\x00b\x00\x00\x00\x06\x01\x00\x11\"3DUFw\x88\x99\xaa\xbb\xcc\xdd\xee\xff\x02N:J;\xc6L\\I\x96\x01\xbe\xff\
    \xad\x19\xd3\xc2a\xa5\x9f\xe4zf\xa6\xd8b\x8e\xc3\x0e\x92\x07L\xb1\xd4\xeap\xd8\x0fa\x15.{w\xb8\xbb\xc48u\xcfVl\
    \x13\xfa\xfa\x1fG>\xa4\xafG\x0aR\x93\xdb7\xb7\x11\x10ug|y\xc4\xc0{\xa0O\xc1b\x10\x0b";

/// `salary: int 7`
pub(crate) const SALARY: &[u8] = b"\x10salary\x00\x07\x00\x00\x00";

/// It sealed with the block of sixteen bytes 01, by the same.
pub(crate) const SEALED_SALARY: &[u8] =
    b"\x05salary\x00R\x00\x00\x00\x06\x02\x00\x11\"3DUFw\x88\x99\xaa\xbb\xcc\xdd\xee\xff\x10\x01\x01\x01\x01\x01\x01\
    \x01\x01\x01\x01\x01\x01\x01\x01\x01\x01\xb8\x11\xbf\xe9\xa2\x81\x17\xdfo5H!\xdcl\x0e\x91Q\x9e\x04!\xd1\x80\x1b@\
    \x92P\xef\xed\xce\x13V\x03\x8fl\xae\xe3\x0e\xec\x1d\xa4\x16\x0ew\xd2\xf6\xdf\x17\x15";

/// The other algorithm.
pub(crate) const RANDOM_A: &[u8] = b"\x10a\x00\x02\x00\x00\x00";

/// The reply to `BOTH`, 331 bytes: three markings.
pub(crate) const BOTH_REPLY: &[u8] =
    b"K\x01\x00\x00\x08hasEncryptionPlaceholders\x00\x01\x08schemaRequiresEncryption\x00\x01\x03result\x00\xfb\x00\
    \x00\x00\x02insert\x00\x07\x00\x00\x00people\x00\x04documents\x00\xcc\x00\x00\x00\x030\x00?\x00\x00\x00\x05salary\
    \x00-\x00\x00\x00\x06\x00,\x00\x00\x00\x10v\x00\x07\x00\x00\x00\x10a\x00\x02\x00\x00\x00\x05ki\x00\x10\x00\x00\
    \x00\x04\x00\x11\"3DUFw\x88\x99\xaa\xbb\xcc\xdd\xee\xff\x00\x00\x031\x00\x82\x00\x00\x00\x05ssn\x009\x00\x00\x00\
    \x06\x008\x00\x00\x00\x02v\x00\x0c\x00\x00\x00123-45-6789\x00\x10a\x00\x01\x00\x00\x00\x05ki\x00\x10\x00\x00\x00\
    \x04\x00\x11\"3DUFw\x88\x99\xaa\xbb\xcc\xdd\xee\xff\x00\x05salary\x00-\x00\x00\x00\x06\x00,\x00\x00\x00\x10v\x00\
    \x08\x00\x00\x00\x10a\x00\x02\x00\x00\x00\x05ki\x00\x10\x00\x00\x00\x04\x00\x11\"3DUFw\x88\x99\xaa\xbb\xcc\xdd\
    \xee\xff\x00\x00\x00\x02$db\x00\x03\x00\x00\x00hr\x00\x00\x01ok\x00\x00\x00\x00\x00\x00\x00\xf0?\x00";

/// The reply to `RANDOM`, 198 bytes: a marking stands for `salary`.
pub(crate) const RANDOM_REPLY: &[u8] =
    b"\xc6\x00\x00\x00\x08hasEncryptionPlaceholders\x00\x01\x08schemaRequiresEncryption\x00\x01\x03result\x00v\x00\
    \x00\x00\x02insert\x00\x07\x00\x00\x00people\x00\x04documents\x00G\x00\x00\x00\x030\x00?\x00\x00\x00\x05salary\
    \x00-\x00\x00\x00\x06\x00,\x00\x00\x00\x10v\x00\x07\x00\x00\x00\x10a\x00\x02\x00\x00\x00\x05ki\x00\x10\x00\x00\
    \x00\x04\x00\x11\"3DUFw\x88\x99\xaa\xbb\xcc\xdd\xee\xff\x00\x00\x00\x02$db\x00\x03\x00\x00\x00hr\x00\x00\x01ok\
    \x00\x00\x00\x00\x00\x00\x00\xf0?\x00";

/// A reply with both flags set and this result.
pub(crate) fn reply_with(rt: &impl Abort, alloc: Global, answer: &[u8]) -> Vec<u8> {
    document(rt, alloc, &[FIRST, SECOND, RESULT_NAME, answer, OK])
}

/// The reply to an insert into `people` of one document, in which these elements stand for the inserted ones.
pub(crate) fn reply_of(rt: &impl Abort, alloc: Global, elements: &[&[u8]]) -> Vec<u8> {
    let elements = joined(rt, alloc, elements);
    let result = insert_of(rt, alloc, &elements);
    reply_with(rt, alloc, &result)
}

/// A binary, `name` its type and name: `head` is its subtype and what stands before a document of these fields.
pub(crate) fn binary_of(
    rt: &impl Abort,
    alloc: Global,
    name: &[u8],
    head: &[u8],
    fields: &[&[u8]],
    behind: &[u8],
) -> Vec<u8> {
    let inside = document(rt, alloc, fields);
    let contents = joined(rt, alloc, &[head, &inside, behind]);
    assert!(rt;
        0 < contents.len() && contents.len() <= 2_000,
        "a test's binary is too long"
    );
    let size = (contents.len() as u32 - 1).to_le_bytes();
    joined(rt, alloc, &[name, &size, &contents])
}

/// `INSERT` and a reply to it must be sealed where there is no line, else end with this line and write nothing.
pub(crate) fn answered(rt: &impl Abort, alloc: Global, reply: &[u8], line: &str) {
    if line.is_empty() {
        answers(
            rt,
            alloc,
            &[INSERT, reply],
            Status::Done,
            SEALED_INSERT,
            line,
        );
    } else {
        answers(rt, alloc, &[INSERT, reply], Status::Refused, b"", line);
    }
}
