//! Classes of paths and walks of dotted paths among a few rules.

use crate::schema::test_documents::{KEY_1, KEY_2, RANDOM, rules, within};
use encrypt_schema::{Class, KeyRef, Policy, Rows, Walk, is_dollar, is_position};
use std::alloc::Global;

/// The field `a` with the fields `b`, under key 2, and `c`, whose `d` is under key 1.
fn field_a(alloc: Global) -> Option<Vec<u8>> {
    let b = within(alloc, &[b"b", b"encrypt"], &[KEY_2, RANDOM])?;
    let c = within(
        alloc,
        &[b"c", b"properties", b"d", b"encrypt"],
        &[KEY_1, RANDOM],
    )?;
    within(alloc, &[b"a", b"properties"], &[&b, &c])
}

/// The rules of [ssn], [a, b] and [a, c, d], in this order, with the keys 1, 2 and 1.
fn three_rules(alloc: Global) -> Option<Rows> {
    let ssn = within(alloc, &[b"ssn", b"encrypt"], &[KEY_1, RANDOM])?;
    let a = field_a(alloc)?;
    let schema = within(alloc, &[b"properties"], &[&ssn, &a])?;
    rules(alloc, &schema)?.ok()
}

/// Whether the policy has the key of sixteen such bytes.
fn has_key(policy: Option<&Policy>, key: u8) -> bool {
    match policy {
        Some(policy) => policy.key.is_same(&KeyRef::Id([key; 16])),
        None => false,
    }
}

/// The class of a dotted path, and whether it is positional.
fn seen(rows: &Rows, dotted: &[u8]) -> (Class, bool) {
    let Walk { at, positional } = rows.walk(dotted);
    (rows.class(at), positional)
}

#[test]
fn rules_in_order(rt: HostRuntime) {
    let rows = three_rules(rt.alloc()).expect(&rt, "no rules");
    assert!(rt; rows.len() == 3);
    assert!(rt; has_key(rows.policy(0), b'1') && has_key(rows.policy(1), b'2'));
    assert!(rt; rows.policy(3).is_none());
}

#[test]
fn a_name_is_a_step_from_the_root(rt: HostRuntime) {
    let rows = three_rules(rt.alloc()).expect(&rt, "no rules");
    let root = rows.root();
    assert!(rt; rows.class(root) == Class::Above);
    assert!(rt; rows.class(rows.step(root, b"ssn")) == Class::Protected(0));
}

#[test]
fn classes_of_paths(rt: HostRuntime) {
    let rows = three_rules(rt.alloc()).expect(&rt, "no rules");
    let cases: &[(&[u8], Class)] = &[
        (b"ssn.x", Class::Below),
        (b"a", Class::Above),
        (b"a.b", Class::Protected(1)),
        (b"a.c", Class::Above),
        (b"a.c.d", Class::Protected(2)),
        (b"a.x", Class::Clear),
        (b"z", Class::Clear),
    ];
    for (dotted, class) in cases {
        assert!(rt; seen(&rows, dotted) == (*class, false));
    }
}

#[test]
fn positions_on_the_way(rt: HostRuntime) {
    let rows = three_rules(rt.alloc()).expect(&rt, "no rules");
    let cases: &[(&[u8], Class, bool)] = &[
        (b"a.0.b", Class::Clear, true),
        (b"0.a", Class::Clear, false),
        (b"a.$[].b", Class::Clear, true),
        (b"a.c.12", Class::Clear, true),
        (b"a..b", Class::Clear, false),
        (b"", Class::Clear, false),
        (b"ssn.0", Class::Below, false),
    ];
    for (dotted, class, positional) in cases {
        assert!(rt; seen(&rows, dotted) == (*class, *positional));
    }
}

#[test]
fn positions_are_of_digits(rt: HostRuntime) {
    assert!(rt; is_position(b"0") && !is_position(b"0x") && !is_position(b""));
    assert!(rt; is_dollar(b"$set"));
}

/// `kind: {}`.
const KIND: &[u8] = b"\x03kind\x00\x05\x00\x00\x00\x00";

/// The rules of each field of `m` but `kind` and `deep`, and of [m, deep, b], in this order.
fn other_rules(alloc: Global) -> Option<Rows> {
    let others = within(
        alloc,
        &[b"additionalProperties", b"encrypt"],
        &[KEY_1, RANDOM],
    )?;
    let deep = within(
        alloc,
        &[b"deep", b"properties", b"b", b"encrypt"],
        &[KEY_2, RANDOM],
    )?;
    let listed = within(alloc, &[b"properties"], &[KIND, &deep])?;
    let schema = within(alloc, &[b"properties", b"m"], &[&others, &listed])?;
    rules(alloc, &schema)?.ok()
}

#[test]
fn classes_among_other_names(rt: HostRuntime) {
    let rows = other_rules(rt.alloc()).expect(&rt, "no rules");
    assert!(rt; rows.len() == 2);
    let cases: &[(&[u8], Class)] = &[
        (b"m", Class::Above),
        (b"m.x", Class::Protected(0)),
        (b"m.", Class::Protected(0)),
        (b"m.x.y", Class::Below),
        (b"m.kind", Class::Clear),
        (b"m.kind.x", Class::Clear),
        (b"m.deep", Class::Above),
        (b"m.deep.b", Class::Protected(1)),
        (b"m.deep.x", Class::Clear),
        (b"x", Class::Clear),
    ];
    for (dotted, class) in cases {
        assert!(rt; seen(&rows, dotted) == (*class, false));
    }
}

#[test]
fn positions_among_other_names(rt: HostRuntime) {
    let rows = other_rules(rt.alloc()).expect(&rt, "no rules");
    let cases: &[(&[u8], Class, bool)] = &[
        (b"m.0", Class::Protected(0), false),
        (b"m.0.x", Class::Below, false),
        (b"m.$", Class::Protected(0), true),
        (b"m.$[].x", Class::Below, true),
        (b"m.deep.0", Class::Clear, true),
        (b"m.x.$", Class::Below, false),
    ];
    for (dotted, class, positional) in cases {
        assert!(rt; seen(&rows, dotted) == (*class, *positional));
    }
}
