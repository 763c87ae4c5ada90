//! The result of a reply: the command, but for its protected values.

use crate::checking::reply_samples::{
    differs_at, document_with, found_under, insert_with, is_right, reply_with,
};
use crate::documents::whole;
use reply_check::WrongReply;
use sample_documents::PEOPLE_SCHEMA;
use sample_documents::reply_parts::{MARKED_SALARY, MARKED_SSN, N};
use std::alloc::Global;

/// `ssn: "123-45-6789"`
const SSN_PLAIN: &[u8] = b"\x02ssn\x00\x0c\x00\x00\x00123-45-6789\x00";

/// `salary: int 7`
const SALARY: &[u8] = b"\x10salary\x00\x07\x00\x00\x00";

/// `ssn` with its marking, of which the fields stand the other way round.
const SSN_TURNED: &[u8] =
    b"\x05ssn\x009\x00\x00\x00\x06\x008\x00\x00\x00\x05ki\x00\x10\x00\x00\x00\x04\x00\x11\"3DUFw\
    \x88\x99\xaa\xbb\xcc\xdd\xee\xff\x10a\x00\x01\x00\x00\x00\x02v\x00\x0c\x00\x00\x00123-45-6\
    789\x00\x00";

/// `ssn` with the marking of `salary`.
const SSN_AS_SALARY: &[u8] =
    b"\x05ssn\x00-\x00\x00\x00\x06\x00,\x00\x00\x00\x10v\x00\x07\x00\x00\x00\x10a\x00\x02\x00\
    \x00\x00\x05ki\x00\x10\x00\x00\x00\x04\x00\x11\"3DUFw\x88\x99\xaa\xbb\xcc\xdd\xee\xff\x00";

/// `salary` with its marking, of which the algorithm stands first.
const SALARY_TURNED: &[u8] =
    b"\x05salary\x00-\x00\x00\x00\x06\x00,\x00\x00\x00\x10a\x00\x02\x00\x00\x00\x10v\x00\x07\x00\
    \x00\x00\x05ki\x00\x10\x00\x00\x00\x04\x00\x11\"3DUFw\x88\x99\xaa\xbb\xcc\xdd\xee\xff\x00";

/// `salary` with the marking of `ssn`.
const SALARY_AS_SSN: &[u8] =
    b"\x05salary\x009\x00\x00\x00\x06\x008\x00\x00\x00\x02v\x00\x0c\x00\x00\x00123-45-6789\x00\
    \x10a\x00\x01\x00\x00\x00\x05ki\x00\x10\x00\x00\x00\x04\x00\x11\"3DUFw\x88\x99\xaa\xbb\xcc\
    \xdd\xee\xff\x00";

/// `salary` with its marking, but for the algorithm, which is that of `ssn`.
const SALARY_DETERMINISTIC: &[u8] =
    b"\x05salary\x00-\x00\x00\x00\x06\x00,\x00\x00\x00\x10v\x00\x07\x00\x00\x00\x10a\x00\x01\x00\
    \x00\x00\x05ki\x00\x10\x00\x00\x00\x04\x00\x11\"3DUFw\x88\x99\xaa\xbb\xcc\xdd\xee\xff\x00";

/// `n` with a marking.
const N_MARKED: &[u8] =
    b"\x05n\x00-\x00\x00\x00\x06\x00,\x00\x00\x00\x10v\x00\x01\x00\x00\x00\x10a\x00\x02\x00\x00\
    \x00\x05ki\x00\x10\x00\x00\x00\x04\x00\x11\"3DUFw\x88\x99\xaa\xbb\xcc\xdd\xee\xff\x00";

/// `salary: {a: true}`
const SALARY_DOCUMENT: &[u8] = b"\x03salary\x00\x09\x00\x00\x00\x08a\x00\x01\x00";

/// The marking of that document.
const DOCUMENT_MARKED: &[u8] =
    b"\x05salary\x002\x00\x00\x00\x06\x001\x00\x00\x00\x03v\x00\x09\x00\x00\x00\x08a\x00\x01\x00\
    \x10a\x00\x02\x00\x00\x00\x05ki\x00\x10\x00\x00\x00\x04\x00\x11\"3DUFw\x88\x99\xaa\xbb\xcc\
    \xdd\xee\xff\x00";

/// The same bytes marked as an array.
const LIST_MARKED: &[u8] =
    b"\x05salary\x002\x00\x00\x00\x06\x001\x00\x00\x00\x04v\x00\x09\x00\x00\x00\x08a\x00\x01\x00\
    \x10a\x00\x02\x00\x00\x00\x05ki\x00\x10\x00\x00\x00\x04\x00\x11\"3DUFw\x88\x99\xaa\xbb\xcc\
    \xdd\xee\xff\x00";

/// That document with a marking inside.
const DOCUMENT_MARKED_INSIDE: &[u8] =
    b"\x03salary\x007\x00\x00\x00\x05a\x00*\x00\x00\x00\x06\x00)\x00\x00\x00\x08v\x00\x01\x10a\
    \x00\x02\x00\x00\x00\x05ki\x00\x10\x00\x00\x00\x04\x00\x11\"3DUFw\x88\x99\xaa\xbb\xcc\xdd\
    \xee\xff\x00\x00";

/// `insert: "people"`
const INSERT_FIELD: &[u8] = b"\x02insert\x00\x07\x00\x00\x00people\x00";

/// `documents` of the right result.
const DOCUMENTS: &[u8] =
    b"\x04documents\x00W\x00\x00\x00\x030\x00O\x00\x00\x00\x05ssn\x009\x00\x00\x00\x06\x008\x00\
    \x00\x00\x02v\x00\x0c\x00\x00\x00123-45-6789\x00\x10a\x00\x01\x00\x00\x00\x05ki\x00\x10\
    \x00\x00\x00\x04\x00\x11\"3DUFw\x88\x99\xaa\xbb\xcc\xdd\xee\xff\x00\x10n\x00\x01\x00\x00\
    \x00\x00\x00";

/// The same bytes as a document.
const DOCUMENTS_DOCUMENT: &[u8] =
    b"\x03documents\x00W\x00\x00\x00\x030\x00O\x00\x00\x00\x05ssn\x009\x00\x00\x00\x06\x008\x00\
    \x00\x00\x02v\x00\x0c\x00\x00\x00123-45-6789\x00\x10a\x00\x01\x00\x00\x00\x05ki\x00\x10\
    \x00\x00\x00\x04\x00\x11\"3DUFw\x88\x99\xaa\xbb\xcc\xdd\xee\xff\x00\x10n\x00\x01\x00\x00\
    \x00\x00\x00";

/// `$db: "hr"`
const DB: &[u8] = b"\x02$db\x00\x03\x00\x00\x00hr\x00";

/// What is found of a reply with a document of these elements to an insert of a document of those values; `None` where
/// that couldn't be tried.
fn found_of(alloc: Global, values: &[&[u8]], elements: &[&[u8]]) -> Option<Result<(), WrongReply>> {
    let values = whole(alloc, values)?;
    let command = insert_with(alloc, &values)?;
    let elements = whole(alloc, elements)?;
    let result = insert_with(alloc, &elements)?;
    let reply = reply_with(alloc, &result)?;
    found_under(alloc, PEOPLE_SCHEMA, &command, &reply)
}

/// Whether these elements are right for those values.
fn are_right(alloc: Global, values: &[&[u8]], elements: &[&[u8]]) -> bool {
    matches!(found_of(alloc, values, elements), Some(Ok(())))
}

/// Whether the result differs where these elements stand in the place of those values.
fn differs(alloc: Global, values: &[&[u8]], elements: &[&[u8]]) -> bool {
    match found_of(alloc, values, elements) {
        Some(Err(WrongReply::Differs { at })) => at == 67,
        _ => false,
    }
}

/// The reply to `INSERT` with a result of these elements.
fn reply_of(alloc: Global, elements: &[&[u8]]) -> Option<Vec<u8>> {
    let result = document_with(alloc, elements)?;
    reply_with(alloc, &result)
}

/// Whether a result of these elements is right for `INSERT`.
fn is_the_result(alloc: Global, elements: &[&[u8]]) -> bool {
    match reply_of(alloc, elements) {
        Some(reply) => is_right(alloc, &reply),
        None => false,
    }
}

/// Whether a result of these elements isn't that of `INSERT`.
fn is_another(alloc: Global, elements: &[&[u8]]) -> bool {
    match reply_of(alloc, elements) {
        Some(reply) => differs_at(alloc, &reply, 67),
        None => false,
    }
}

#[test]
fn a_marking_stands_for_each_protected_value(rt: HostRuntime) {
    let cases: &[(&[&[u8]], &[&[u8]])] = &[
        (&[SSN_PLAIN, N], &[MARKED_SSN, N]),
        (&[SSN_PLAIN, SALARY], &[MARKED_SSN, MARKED_SALARY]),
        (&[SSN_PLAIN, SALARY], &[MARKED_SSN, SALARY_TURNED]),
        (&[SSN_PLAIN, SALARY], &[SSN_TURNED, SALARY_TURNED]),
        (&[SALARY, N, SSN_PLAIN], &[MARKED_SALARY, N, SSN_TURNED]),
        (&[SSN_PLAIN, SSN_PLAIN], &[MARKED_SSN, SSN_TURNED]),
        (&[SALARY_DOCUMENT, N], &[DOCUMENT_MARKED, N]),
    ];
    for (values, elements) in cases {
        assert!(rt; are_right(rt.alloc(), values, elements));
    }
}

#[test]
fn a_value_that_is_left_plain_or_marked_otherwise_differs(rt: HostRuntime) {
    let cases: &[(&[&[u8]], &[&[u8]])] = &[
        (&[SSN_PLAIN, SALARY], &[SSN_PLAIN, MARKED_SALARY]),
        (&[SSN_PLAIN, SALARY], &[MARKED_SSN, SALARY]),
        (&[SSN_PLAIN, SSN_PLAIN], &[MARKED_SSN, SSN_PLAIN]),
        (&[SSN_PLAIN, SALARY], &[SSN_AS_SALARY, SALARY_AS_SSN]),
        (&[SSN_PLAIN, SALARY], &[MARKED_SALARY, MARKED_SSN]),
        (&[SALARY, N], &[SALARY_DETERMINISTIC, N]),
        (&[SALARY_DOCUMENT, N], &[LIST_MARKED, N]),
        (&[SALARY_DOCUMENT, N], &[DOCUMENT_MARKED_INSIDE, N]),
        (&[SSN_PLAIN, N], &[MARKED_SSN, N_MARKED]),
        (&[N, SSN_PLAIN], &[N_MARKED, MARKED_SSN]),
    ];
    for (values, elements) in cases {
        assert!(rt; differs(rt.alloc(), values, elements));
    }
}

#[test]
fn an_unprotected_value_is_the_same(rt: HostRuntime) {
    let results: &[&[&[u8]]] = &[
        &[MARKED_SSN],
        &[N, MARKED_SSN],
        &[MARKED_SSN, N, N],
        &[MARKED_SSN, b"\x10n\x00\x02\x00\x00\x00"],
        &[MARKED_SSN, b"\x10m\x00\x01\x00\x00\x00"],
        &[MARKED_SSN, b"\x10nn\x00\x01\x00\x00\x00"],
        &[MARKED_SSN, b"\x0an\x00"],
        &[MARKED_SSN, b"\x12n\x00\x01\x00\x00\x00\x00\x00\x00\x00"],
    ];
    for elements in results {
        assert!(rt; differs(rt.alloc(), &[SSN_PLAIN, N], elements));
    }
}

#[test]
fn the_type_of_an_unprotected_value_is_the_same(rt: HostRuntime) {
    let cases: &[(&[&[u8]], &[&[u8]])] = &[
        (
            &[b"\x02t\x00\x02\x00\x00\x00x\x00", SSN_PLAIN],
            &[b"\x0et\x00\x02\x00\x00\x00x\x00", MARKED_SSN],
        ),
        (
            &[b"\x03t\x00\x05\x00\x00\x00\x00", SSN_PLAIN],
            &[b"\x04t\x00\x05\x00\x00\x00\x00", MARKED_SSN],
        ),
        (
            &[SSN_PLAIN, b"\x09t\x00\x01\x00\x00\x00\x00\x00\x00\x00"],
            &[MARKED_SSN, b"\x12t\x00\x01\x00\x00\x00\x00\x00\x00\x00"],
        ),
        (&[SSN_PLAIN, b"\x0at\x00"], &[MARKED_SSN, b"\xfft\x00"]),
    ];
    for (values, elements) in cases {
        assert!(rt; differs(rt.alloc(), values, elements));
    }
}

#[test]
fn the_result_has_the_fields_of_the_command(rt: HostRuntime) {
    assert!(rt; is_the_result(rt.alloc(), &[INSERT_FIELD, DOCUMENTS, DB]));
    let results: &[&[&[u8]]] = &[
        &[],
        &[INSERT_FIELD, DOCUMENTS],
        &[INSERT_FIELD, DB, DOCUMENTS],
        &[INSERT_FIELD, DOCUMENTS, DB, DB],
        &[INSERT_FIELD, DOCUMENTS, DOCUMENTS, DB],
        &[INSERT_FIELD, DOCUMENTS_DOCUMENT, DB],
        &[b"\x02insert\x00\x06\x00\x00\x00notes\x00", DOCUMENTS, DB],
        &[b"\x02delete\x00\x07\x00\x00\x00people\x00", DOCUMENTS, DB],
        &[INSERT_FIELD, DOCUMENTS, b"\x02$db\x00\x02\x00\x00\x00h\x00"],
    ];
    for elements in results {
        assert!(rt; is_another(rt.alloc(), elements));
    }
}
