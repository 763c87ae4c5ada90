//! Files of collection infos, as MongoDB's `listCollections` answers them.

use crate::schema::test_documents::{joined, put_document};
use encrypt_schema::{
    Algorithm, Class, InfoFault, InfoKind, Infos, KeyRef, Policy, Rows, SchemaFault,
};
use sample_documents::PEOPLE;
use std::alloc::Global;

/// The key's id.
const KEY: [u8; 16] = [
    0x00, 0x11, 0x22, 0x33, 0x44, 0x55, 0x46, 0x77, 0x88, 0x99, 0xaa, 0xbb, 0xcc, 0xdd, 0xee, 0xff,
];

/// `name: "c"`.
const NAME: &[u8] = b"\x02name\x00\x02\x00\x00\x00c\x00";

/// `type: "view"`.
const VIEW: &[u8] = b"\x02type\x00\x05\x00\x00\x00view\x00";

/// `options: ""`.
const OPTIONS_TEXT: &[u8] = b"\x02options\x00\x01\x00\x00\x00\x00";

/// The bytes of a document that ends too soon.
const CUT: &[u8] = b"\x05\x00\x00";

/// The longest file that a test makes.
const LONGEST: usize = 100_000;

/// `options` with the schema `{properties: true}`, whose form is wrong.
const BAD_SCHEMA: &[u8] =
    b"\x03options\x00\x34\x00\x00\x00\x03validator\x00\x24\x00\x00\x00\x03$jsonSchema\x00\x12\x00\x00\x00\
      \x08properties\x00\x01\x00\x00\x00";

/// A file of infos, each with the elements of these parts.
fn file_of(alloc: Global, infos: &[&[&[u8]]]) -> Option<Vec<u8>> {
    let mut file = Vec::new(alloc);
    for parts in infos {
        put_document(&mut file, &joined(alloc, parts)?)?;
    }
    Some(file)
}

/// Whether the file's faulty document has this number and this fault; without a fault, whether the file is read.
fn has_fault(alloc: Global, file: &[u8], fault: Option<(u32, InfoKind)>) -> bool {
    if file.len() > LONGEST {
        return false;
    }
    match Infos::load(alloc, file) {
        Ok(_) => fault.is_none(),
        Err(InfoFault::Bad { document, kind }) => fault == Some((document, kind)),
        Err(InfoFault::Memory) => false,
    }
}

/// The same of a file of infos, each with the elements of these parts.
fn infos_have_fault(alloc: Global, infos: &[&[&[u8]]], fault: Option<(u32, InfoKind)>) -> bool {
    match file_of(alloc, infos) {
        Some(file) => has_fault(alloc, &file, fault),
        None => false,
    }
}

/// Whether the policy has the key and this algorithm, and allows a string, and an int where the flag says so.
fn is_policy(policy: Option<&Policy>, algorithm: Algorithm, int: bool) -> bool {
    match policy {
        Some(policy) => {
            policy.algorithm == algorithm
                && policy.key.is_same(&KeyRef::Id(KEY))
                && policy.types.has(0x02)
                && policy.types.has(0x10) == int
        }
        None => false,
    }
}

#[test]
fn a_collection_is_found_by_its_name(rt: HostRuntime) {
    let infos = Infos::load(rt.alloc(), PEOPLE).expect(&rt, "no infos");
    assert!(rt; infos.info_of(b"staff").is_none());
    let info = infos.info_of(b"people").expect(&rt, "no people");
    assert!(rt; !info.is_view() && info.name() == b"people".as_slice());
}

/// The class of a name.
fn class_of(rows: &Rows, name: &[u8]) -> Class {
    rows.class(rows.walk(name).at)
}

#[test]
fn two_rules_of_one_collection(rt: HostRuntime) {
    let infos = Infos::load(rt.alloc(), PEOPLE).expect(&rt, "no infos");
    let rows = infos.info_of(b"people").expect(&rt, "no people").rows();
    assert!(rt; rows.len() == 2);
    assert!(rt; is_policy(rows.policy(0), Algorithm::Deterministic, false));
    assert!(rt; is_policy(rows.policy(1), Algorithm::Random, true));
    let classes: &[(&[u8], Class)] = &[
        (b"ssn", Class::Protected(0)),
        (b"salary", Class::Protected(1)),
        (b"name", Class::Clear),
    ];
    for (name, class) in classes {
        assert!(rt; class_of(rows, name) == *class);
    }
}

#[test]
fn a_file_of_no_infos_has_no_collection(rt: HostRuntime) {
    let infos = Infos::load(rt.alloc(), b"").expect(&rt, "no infos");
    assert!(rt; infos.info_of(b"people").is_none());
}

#[test]
fn an_info_has_fields_of_one_form(rt: HostRuntime) {
    let cases: &[(&[&[u8]], bool)] = &[
        (&[], false),
        (&[NAME], true),
        (&[b"\x02name\x00\x01\x00\x00\x00\x00"], false),
        (&[b"\x08name\x00\x01"], false),
        (&[NAME, NAME], false),
        (&[NAME, b"\x10type\x00\x01\x00\x00\x00"], false),
        (&[NAME, OPTIONS_TEXT], false),
        (&[NAME, VIEW, OPTIONS_TEXT], false),
        (&[NAME, VIEW, VIEW], false),
        (
            &[
                NAME,
                b"\x03options\x00\x11\x00\x00\x00\x08validator\x00\x01\x00",
            ],
            false,
        ),
        (&[NAME, b"\x03options\x00\x05\x00\x00\x00\x00"], true),
        (&[NAME, b"\x08info\x00\x01"], true),
    ];
    for (parts, good) in cases {
        let fault = if *good {
            None
        } else {
            Some((1, InfoKind::Shape))
        };
        assert!(rt; infos_have_fault(rt.alloc(), &[*parts], fault));
    }
}

#[test]
fn a_form_a_name_and_a_schema_are_judged_in_order(rt: HostRuntime) {
    let cases: &[(&[&[&[u8]]], u32, InfoKind)] = &[
        (
            &[&[NAME, BAD_SCHEMA]],
            1,
            InfoKind::Schema(SchemaFault::Shape),
        ),
        (&[&[NAME], &[NAME, BAD_SCHEMA]], 2, InfoKind::Twice),
        (&[&[NAME], &[NAME, NAME, BAD_SCHEMA]], 2, InfoKind::Shape),
        (&[&[NAME], &[NAME]], 2, InfoKind::Twice),
        (&[&[NAME], &[VIEW], &[NAME, BAD_SCHEMA]], 2, InfoKind::Shape),
    ];
    for (infos, document, kind) in cases {
        assert!(rt; infos_have_fault(rt.alloc(), infos, Some((*document, *kind))));
    }
}

/// The same of such a file, at whose end a document ends too soon.
fn cut_infos_have_fault(alloc: Global, infos: &[&[&[u8]]], fault: Option<(u32, InfoKind)>) -> bool {
    match file_of(alloc, infos) {
        Some(mut file) => file.extend_from_slice(CUT).is_ok() && has_fault(alloc, &file, fault),
        None => false,
    }
}

#[test]
fn documents_are_judged_one_after_another(rt: HostRuntime) {
    let cases: &[(&[&[&[u8]]], u32, InfoKind)] = &[
        (&[], 1, InfoKind::Bson),
        (&[&[NAME]], 2, InfoKind::Bson),
        (&[&[VIEW]], 1, InfoKind::Shape),
    ];
    for (infos, document, kind) in cases {
        assert!(rt; cut_infos_have_fault(rt.alloc(), infos, Some((*document, *kind))));
    }
}

/// The infos of a view whose schema has a wrong form.
fn bad_view(alloc: Global) -> Option<Infos> {
    let file = file_of(alloc, &[&[NAME, VIEW, BAD_SCHEMA]])?;
    if file.len() > LONGEST {
        return None;
    }
    Infos::load(alloc, &file).ok()
}

#[test]
fn the_schema_of_a_view_is_not_read(rt: HostRuntime) {
    let infos = bad_view(rt.alloc()).expect(&rt, "no infos");
    let info = infos.info_of(b"c").expect(&rt, "no view");
    assert!(rt; info.is_view() && info.rows().len() == 0);
}
