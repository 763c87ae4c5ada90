//! Whole runs that are refused under rules whose keys are named by JSON pointers (RFC 6901): pointers that lead to no
//! text, names of keys that aren't to be had, and schemas whose pointers are none. The documents and the lines are by a
//! plain program of the rules.

use crate::pointer_samples::{
    AS_DETERMINISTIC, AS_RANDOM, BY_AUDIT, FILE, FIND, FRONT, MEMO, NOTE, OWNER, OWNER_CLOUD,
    OWNER_X, SET_ON_INSERT, WITHOUT_TYPE,
};
use crate::pointer_tests::{insert, named, refuses_named, seals_named, update, vault};
use crate::runs::{Run, marking, sealing, stops, writes};
use fle_stream::Status;
use sample_documents::TWO_KEYS;

#[test]
fn without_its_target_a_value_is_refused(rt: HostRuntime) {
    let alloc = rt.alloc();
    let cases: &[(&[&[u8]], &str)] = &[
        (&[NOTE], "fle: 1 1 23 1.0.0\n"),
        (
            &[b"\x10owner\x00\x01\x00\x00\x00", NOTE],
            "fle: 1 1 23 1.0.1\n",
        ),
        (
            &[b"\x0eowner\x00\x07\x00\x00\x00hr-key\x00", NOTE],
            "fle: 1 1 23 1.0.1\n",
        ),
        (
            &[b"\x03owner\x00\x05\x00\x00\x00\x00", NOTE],
            "fle: 1 1 23 1.0.1\n",
        ),
        (
            &[b"\x02Owner\x00\x07\x00\x00\x00hr-key\x00", NOTE],
            "fle: 1 1 23 1.0.1\n",
        ),
        (&[OWNER, NOTE, OWNER], "fle: 1 1 23 1.0.1\n"),
        (
            &[OWNER, b"\x10owner\x00\x07\x00\x00\x00", NOTE],
            "fle: 1 1 23 1.0.2\n",
        ),
        (&[b"\x0anote\x00"], "fle: 1 1 5 1.0.0\n"),
        (&[b"\x05note\x00\x00\x00\x00\x00\x06"], "fle: 1 1 6 1.0.0\n"),
    ];
    for (elements, line) in cases {
        refuses_named(&rt, alloc, &insert(&rt, alloc, FILE, elements), line);
    }
}

#[test]
fn a_target_stands_in_documents_that_stand_once(rt: HostRuntime) {
    let alloc = rt.alloc();
    let cases: &[(&[&[u8]], &str)] = &[
        (
            &[
                b"\x04by\x00\x16\x00\x00\x00\x02o/n~r\x00\x06\x00\x00\x00audit\x00\x00",
                MEMO,
            ],
            "fle: 1 1 23 1.0.1\n",
        ),
        (
            &[BY_AUDIT, b"\x03by\x00\x05\x00\x00\x00\x00", MEMO],
            "fle: 1 1 23 1.0.2\n",
        ),
        (
            &[b"\x02by\x00\x06\x00\x00\x00audit\x00", MEMO],
            "fle: 1 1 23 1.0.1\n",
        ),
        (
            &[
                b"\x03by\x00\x18\x00\x00\x00\x02o~1n~0r\x00\x06\x00\x00\x00audit\x00\x00",
                MEMO,
            ],
            "fle: 1 1 23 1.0.1\n",
        ),
    ];
    for (elements, line) in cases {
        refuses_named(&rt, alloc, &insert(&rt, alloc, FILE, elements), line);
    }
}

#[test]
fn a_target_is_a_clear_string(rt: HostRuntime) {
    let alloc = rt.alloc();
    let cases: &[(&[&[u8]], &str)] = &[
        (
            &[b"\x02self\x00\x07\x00\x00\x00hr-key\x00"],
            "fle: 1 1 23 1.0.0\n",
        ),
        (
            &[
                OWNER,
                b"\x03file\x00\x17\x00\x00\x00\x02owner\x00\x07\x00\x00\x00hr-key\x00\x00",
                b"\x10inside\x00\x07\x00\x00\x00",
            ],
            "fle: 1 1 23 1.0.2\n",
        ),
        (
            &[
                b"\x02sum\x00\x07\x00\x00\x00hr-key\x00",
                b"\x10above\x00\x07\x00\x00\x00",
            ],
            "fle: 1 1 23 1.0.1\n",
        ),
    ];
    for (elements, line) in cases {
        refuses_named(&rt, alloc, &insert(&rt, alloc, FILE, elements), line);
    }
}

#[test]
fn no_pointer_is_read_under_operators_and_none_in_a_filter(rt: HostRuntime) {
    let alloc = rt.alloc();
    let cases: &[(&[&[u8]], &str)] = &[
        (
            &[b"\x03$set\x00\x0f\x00\x00\x00\x10note\x00\x07\x00\x00\x00\x00"],
            "fle: 1 1 23 1.0.1.0.0\n",
        ),
        (&[SET_ON_INSERT], "fle: 1 1 23 1.0.1.0.1\n"),
        (
            &[
                b"\x03$set\x00\x16\x00\x00\x00\x03sum\x00\x0c\x00\x00\x00\x10x\x00\x07\x00\x00\x00\x00\x00",
            ],
            "fle: 1 1 23 1.0.1.0.0.0\n",
        ),
        (
            &[b"\x03$rename\x00\x14\x00\x00\x00\x02note\x00\x05\x00\x00\x00memo\x00\x00"],
            "fle: 1 1 15 1.0.1.0.0\n",
        ),
    ];
    for (elements, line) in cases {
        refuses_named(&rt, alloc, &update(&rt, alloc, FILE, elements), line);
    }
    refuses_named(&rt, alloc, FIND, "fle: 1 1 10 1.0\n");
    let kept: &[&[u8]] = &[
        b"\x03$rename\x00\x15\x00\x00\x00\x02note\x00\x06\x00\x00\x00sum.x\x00\x00",
        b"\x03$unset\x00\x10\x00\x00\x00\x02note\x00\x01\x00\x00\x00\x00\x00",
    ];
    let command = update(&rt, alloc, FILE, kept);
    let run = named(TWO_KEYS, &command);
    seals_named(&rt, alloc, run, &command);
}

#[test]
fn a_key_is_refused_by_its_name(rt: HostRuntime) {
    let alloc = rt.alloc();
    let keys = vault(&rt, alloc);
    let cases: &[(&[&[u8]], &str)] = &[
        (&[OWNER_X, NOTE], "fle: 1 1 16 1.0.1\n"),
        (
            &[b"\x02owner\x00\x06\x00\x00\x00hr-ke\x00", NOTE],
            "fle: 1 1 16 1.0.1\n",
        ),
        (
            &[b"\x02owner\x00\x08\x00\x00\x00hr-key \x00", NOTE],
            "fle: 1 1 16 1.0.1\n",
        ),
        (
            &[b"\x02owner\x00\x07\x00\x00\x00HR-KEY\x00", NOTE],
            "fle: 1 1 16 1.0.1\n",
        ),
        (
            &[b"\x02owner\x00\x02\x00\x00\x00k\x00", NOTE],
            "fle: 1 1 16 1.0.1\n",
        ),
        (&[OWNER_CLOUD, NOTE], "fle: 1 1 17 1.0.1\n"),
        (
            &[b"\x02owner\x00\x05\x00\x00\x00worn\x00", NOTE],
            "fle: 1 1 18 1.0.1\n",
        ),
        (&[OWNER_X, BY_AUDIT, MEMO, NOTE], "fle: 1 1 16 1.0.3\n"),
        (
            &[
                OWNER_CLOUD,
                b"\x03by\x00\x15\x00\x00\x00\x02o/n~r\x00\x05\x00\x00\x00worn\x00\x00",
                NOTE,
                MEMO,
            ],
            "fle: 1 1 17 1.0.2\n",
        ),
    ];
    for (elements, line) in cases {
        let command = insert(&rt, alloc, FILE, elements);
        let run = named(&keys, &command);
        stops(&rt, alloc, run, Status::Refused, line);
    }
}

#[test]
fn what_is_no_pointer_is_told_and_so_is_a_deterministic_rule(rt: HostRuntime) {
    let alloc = rt.alloc();
    let cases: &[(&[u8], &[u8], &str, &str)] = &[
        (b"", AS_RANDOM, "fle: 4 1 42 1\n", "fle: 4 2 42 1\n"),
        (b"/", AS_RANDOM, "fle: 4 1 42 1\n", "fle: 4 2 42 1\n"),
        (b"owner", AS_RANDOM, "fle: 4 1 42 1\n", "fle: 4 2 42 1\n"),
        (b"#/owner", AS_RANDOM, "fle: 4 1 42 1\n", "fle: 4 2 42 1\n"),
        (b"/owner/", AS_RANDOM, "fle: 4 1 42 1\n", "fle: 4 2 42 1\n"),
        (b"/a//b", AS_RANDOM, "fle: 4 1 42 1\n", "fle: 4 2 42 1\n"),
        (b"/~", AS_RANDOM, "fle: 4 1 42 1\n", "fle: 4 2 42 1\n"),
        (b"/~2", AS_RANDOM, "fle: 4 1 42 1\n", "fle: 4 2 42 1\n"),
        (b"/a~", AS_RANDOM, "fle: 4 1 42 1\n", "fle: 4 2 42 1\n"),
        (
            b"/owner",
            AS_DETERMINISTIC,
            "fle: 4 1 54 1\n",
            "fle: 4 2 54 1\n",
        ),
        (
            b"/owner",
            WITHOUT_TYPE,
            "fle: 4 1 49 1\n",
            "fle: 4 2 49 1\n",
        ),
        (
            b"/~",
            AS_DETERMINISTIC,
            "fle: 4 1 42 1\n",
            "fle: 4 2 42 1\n",
        ),
    ];
    for (pointer, behind, first, second) in cases {
        let infos = [FRONT, *pointer, *behind];
        let run = Run {
            infos: &infos,
            ..marking(b"")
        };
        stops(&rt, alloc, run, Status::Setup, first);
        let run = Run {
            infos: &infos,
            ..sealing(b"")
        };
        stops(&rt, alloc, run, Status::Setup, second);
    }
}

#[test]
fn names_of_a_pointer_have_any_characters(rt: HostRuntime) {
    let pointers: &[&[u8]] = &[b"/owner", b"/$a/b.c", b"/~0~1/~01", b"/ /\\u00e9/7"];
    for pointer in pointers {
        let run = Run {
            infos: &[FRONT, *pointer, AS_RANDOM],
            ..marking(b"")
        };
        writes(&rt, rt.alloc(), run, b"");
    }
}
