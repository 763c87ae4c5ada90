//! The marks of filters, and where one is refused.

use bson_codec::check_bson;
use encrypt_schema::{Mark, MarkFault, Marks, Reason, Role, Rows};
use filter_rules::mark_filter;
use sample_documents::{PEOPLE_SCHEMA, STAFF};
use std::alloc::Global;

/// The marks of a filter under the rules of a schema, or why there are none; `None` where one of the two can't be read.
fn marks_of(alloc: Global, schema: &[u8], filter: &[u8]) -> Option<Result<Marks, MarkFault>> {
    if schema.len() > 1000 || filter.len() > 1000 {
        return None;
    }
    let rows = Rows::read(alloc, &check_bson(schema).ok()?).ok()?;
    let filter = check_bson(filter).ok()?;
    let mut marks = Marks::new(alloc);
    match mark_filter(&mut marks, &rows, &filter) {
        Ok(()) => Some(Ok(marks)),
        Err(fault) => Some(Err(fault)),
    }
}

/// Whether the marks begin here, each of a string of one byte that is compared under the first rule.
fn are_strings_at(marks: &Marks, starts: &[u32]) -> bool {
    for i in 0..starts.len() {
        let compared = Mark {
            start: starts[i],
            end: starts[i].saturating_add(6),
            tag: 0x02,
            policy: 0,
            role: Role::Compare,
            name: None,
        };
        if marks.get(i) != Some(compared) {
            return false;
        }
    }
    marks.len() == starts.len()
}

/// Whether such strings, which begin here, are all that is marked of a filter under the rules of people.
fn is_marked(alloc: Global, filter: &[u8], starts: &[u32]) -> bool {
    matches!(marks_of(alloc, PEOPLE_SCHEMA, filter), Some(Ok(marks)) if are_strings_at(&marks, starts))
}

/// Whether a filter is refused for this reason at this offset.
fn is_refused(alloc: Global, schema: &[u8], filter: &[u8], reason: Reason, at: u32) -> bool {
    match marks_of(alloc, schema, filter) {
        Some(
            Err(
                MarkFault::Refused {
                    reason: found,
                    at: place,
                },
            ),
        ) => found == reason && place == at,
        _ => false,
    }
}

/// `{ssn: {$in: ["x", "y", "x"]}}`, `{$or: [{ssn: "x"}, {ssn: {$ne: "x"}}]}`, `{ssn: {$not: {$eq: "x"}}}`,
/// `{salary: {$exists: true}}`, `{ssn: {$in: []}}`.
#[test]
fn compared_values_are_marked(rt: HostRuntime) {
    let cases: &[(&[u8], &[u32])] = &[
        (
            b"4\x00\x00\x00\x03ssn\x00*\x00\x00\x00\x04$in\x00 \x00\x00\x00\x020\x00\x02\x00\x00\x00x\x00\
              \x021\x00\x02\x00\x00\x00y\x00\x022\x00\x02\x00\x00\x00x\x00\x00\x00\x00",
            &[25, 34, 43],
        ),
        (
            b"?\x00\x00\x00\x04$or\x005\x00\x00\x00\x030\x00\x10\x00\x00\x00\x02ssn\x00\x02\x00\x00\x00x\x00\x00\
              \x031\x00\x1A\x00\x00\x00\x03ssn\x00\x10\x00\x00\x00\x02$ne\x00\x02\x00\x00\x00x\x00\x00\x00\x00\x00",
            &[25, 53],
        ),
        (
            b"%\x00\x00\x00\x03ssn\x00\x1B\x00\x00\x00\x03$not\x00\x10\x00\x00\x00\x02$eq\x00\x02\x00\x00\x00x\x00\
              \x00\x00\x00",
            &[28],
        ),
        (
            b"\x1C\x00\x00\x00\x03salary\x00\x0F\x00\x00\x00\x08$exists\x00\x01\x00\x00",
            &[],
        ),
        (
            b"\x19\x00\x00\x00\x03ssn\x00\x0F\x00\x00\x00\x04$in\x00\x05\x00\x00\x00\x00\x00\x00",
            &[],
        ),
    ];
    for (filter, starts) in cases {
        assert!(rt; is_marked(rt.alloc(), filter, starts));
    }
}

/// `{salary: 3}`, `{salary: null}`, `{ssn: {$in: "x"}}`, `{salary: {$in: []}}`, `{$where: "x"}`, `{ssn: {}}`,
/// `{ssn: {$gt: "x"}}`.
#[test]
fn values_are_refused_where_they_stand(rt: HostRuntime) {
    let cases: &[(&[u8], Reason, u32)] = &[
        (
            b"\x11\x00\x00\x00\x10salary\x00\x03\x00\x00\x00\x00",
            Reason::RandomCompared,
            12,
        ),
        (
            b"\x0D\x00\x00\x00\x0Asalary\x00\x00",
            Reason::TypeNotAllowed,
            12,
        ),
        (
            b"\x1A\x00\x00\x00\x03ssn\x00\x10\x00\x00\x00\x02$in\x00\x02\x00\x00\x00x\x00\x00\x00",
            Reason::BadField,
            18,
        ),
        (
            b"\x1C\x00\x00\x00\x03salary\x00\x0F\x00\x00\x00\x04$in\x00\x05\x00\x00\x00\x00\x00\x00",
            Reason::RandomCompared,
            21,
        ),
        (
            b"\x13\x00\x00\x00\x02$where\x00\x02\x00\x00\x00x\x00\x00",
            Reason::FieldNotAllowed,
            12,
        ),
        (
            b"\x0F\x00\x00\x00\x03ssn\x00\x05\x00\x00\x00\x00\x00",
            Reason::TypeNotAllowed,
            9,
        ),
        (
            b"\x1A\x00\x00\x00\x03ssn\x00\x10\x00\x00\x00\x02$gt\x00\x02\x00\x00\x00x\x00\x00\x00",
            Reason::OperatorOnProtected,
            18,
        ),
    ];
    for (filter, reason, at) in cases {
        assert!(rt; is_refused(rt.alloc(), PEOPLE_SCHEMA, filter, *reason, *at));
    }
}

/// `{"a.b.c": 1}`, `{a: {b: 1}}`.
#[test]
fn paths_below_and_above_are_refused(rt: HostRuntime) {
    let cases: &[(&[u8], Reason, u32)] = &[
        (
            b"\x10\x00\x00\x00\x10a.b.c\x00\x01\x00\x00\x00\x00",
            Reason::BelowProtected,
            11,
        ),
        (
            b"\x14\x00\x00\x00\x03a\x00\x0C\x00\x00\x00\x10b\x00\x01\x00\x00\x00\x00\x00",
            Reason::PrefixCompared,
            7,
        ),
    ];
    for (filter, reason, at) in cases {
        assert!(rt; is_refused(rt.alloc(), STAFF, filter, *reason, *at));
    }
}
