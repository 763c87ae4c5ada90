//! Whole runs under rules whose keys are named by JSON pointers (RFC 6901): which key a value is sealed under, and for
//! which reason and at which place the rest is refused. The documents are by a plain program of BSON's grammar, what
//! they are sealed to by Python's hmac and a plain program of AES.

use crate::pair_tests::ENCRYPT_WITH;
use crate::pointer_samples::{
    AT_FILE, BY_AUDIT, BY_ID, CLIENT, FILE, FILES, FINANCE, FINANCE_SECOND, HR, HR_SECOND, MARKED,
    MEMO, MORE_KEYS, NAMELESS, NOTE, OPEN, OTHER_NAME, OWNER, OWNER_FINANCE, RIGHT, SHUT, SYMBOL,
    TURNED, TWO_DOCUMENTS, TWO_SEALED,
};
use crate::runs::{
    Run, document, expect, joined, marking, opening, output, sealing, stops, writes,
};
use fle_stream::Status;
use sample_documents::{CLIENTS, TWO_KEYS};
use std::alloc::Global;
use std::process::Abort;

/// The infos that most runs have.
const RULES: [&[u8]; 1] = [FILES];

/// The blocks of 01 and of 02.
const BLOCKS: [[u8; 16]; 2] = [[1; 16], [2; 16]];

/// The two keys of `TWO_KEYS`, one with the name `hr-key`, the other with `finance` and `audit`, and three more.
pub(crate) fn vault(rt: &impl Abort, alloc: Global) -> Vec<u8> {
    joined(rt, alloc, &[TWO_KEYS, MORE_KEYS])
}

/// `{insert: NAME, documents: [{ELEMENTS}], $db: "hr"}`; the name is a string's bytes.
pub(crate) fn insert(rt: &impl Abort, alloc: Global, name: &[u8], elements: &[&[u8]]) -> Vec<u8> {
    let stored = document(rt, alloc, elements);
    let documents = document(rt, alloc, &[b"\x030\x00", &stored]);
    document(
        rt,
        alloc,
        &[
            b"\x02insert\x00",
            name,
            b"\x04documents\x00",
            &documents,
            b"\x02$db\x00\x03\x00\x00\x00hr\x00",
        ],
    )
}

/// `{update: NAME, updates: [{q: {}, u: {ELEMENTS}}], $db: "hr"}`; the name is a string's bytes.
pub(crate) fn update(rt: &impl Abort, alloc: Global, name: &[u8], elements: &[&[u8]]) -> Vec<u8> {
    let with = document(rt, alloc, elements);
    let item = document(
        rt,
        alloc,
        &[b"\x03q\x00\x05\x00\x00\x00\x00\x03u\x00", &with],
    );
    let updates = document(rt, alloc, &[b"\x030\x00", &item]);
    document(
        rt,
        alloc,
        &[
            b"\x02update\x00",
            name,
            b"\x04updates\x00",
            &updates,
            b"\x02$db\x00\x03\x00\x00\x00hr\x00",
        ],
    )
}

/// A run of `encrypt` over this input, under the rules of `FILES` and these keys.
pub(crate) fn named<'a>(keys: &'a [u8], input: &'a [u8]) -> Run<'a> {
    Run {
        keys,
        infos: &RULES,
        blocks: &BLOCKS,
        ..sealing(input)
    }
}

/// The run of `encrypt` writes this, alone and behind the replies of `mark`, and `decrypt` opens it again.
pub(crate) fn seals_named(rt: &impl Abort, alloc: Global, run: Run<'_>, sealed: &[u8]) {
    writes(rt, alloc, run, sealed);
    let opened = Run {
        keys: run.keys,
        ..opening(sealed)
    };
    writes(rt, alloc, opened, run.input);
    let marked = Run {
        infos: run.infos,
        ..marking(run.input)
    };
    let reply = output(rt, alloc, marked);
    let pair = joined(rt, alloc, &[run.input, &reply]);
    let checked = Run {
        words: &ENCRYPT_WITH,
        input: &pair,
        ..run
    };
    writes(rt, alloc, checked, sealed);
}

/// `mark` and `encrypt` refuse a command with this line.
pub(crate) fn refuses_named(rt: &impl Abort, alloc: Global, command: &[u8], line: &str) {
    let keys = vault(rt, alloc);
    let run = named(&keys, command);
    stops(rt, alloc, run, Status::Refused, line);
    let run = Run {
        infos: &RULES,
        ..marking(command)
    };
    stops(rt, alloc, run, Status::Refused, line);
}

#[test]
fn a_value_is_sealed_under_the_key_that_its_document_names(rt: HostRuntime) {
    let alloc = rt.alloc();
    let keys = vault(&rt, alloc);
    let plain: &[&[u8]] = &[OWNER, NOTE];
    let sealed: &[&[u8]] = &[OWNER, b"\x05note\x00", HR];
    let command = insert(&rt, alloc, CLIENT, plain);
    let run = Run {
        infos: &[CLIENTS],
        ..named(&keys, &command)
    };
    seals_named(&rt, alloc, run, &insert(&rt, alloc, CLIENT, sealed));
    let run = Run {
        infos: &[CLIENTS],
        ..marking(&command)
    };
    writes(&rt, alloc, run, MARKED);
    let command = update(&rt, alloc, CLIENT, plain);
    let run = Run {
        infos: &[CLIENTS],
        ..named(&keys, &command)
    };
    seals_named(&rt, alloc, run, &update(&rt, alloc, CLIENT, sealed));
}

/// The insert of each first list of elements is sealed to that of the second one.
fn seals_each(rt: &impl Abort, alloc: Global, cases: &[(&[&[u8]], &[&[u8]])]) {
    let keys = vault(rt, alloc);
    for (plain, sealed) in cases {
        let command = insert(rt, alloc, FILE, plain);
        let run = named(&keys, &command);
        seals_named(rt, alloc, run, &insert(rt, alloc, FILE, sealed));
    }
}

#[test]
fn each_pointer_leads_to_its_own_key(rt: HostRuntime) {
    let cases: &[(&[&[u8]], &[&[u8]])] = &[
        (&[OWNER, NOTE], &[OWNER, b"\x05note\x00", HR]),
        (
            &[NOTE, OWNER_FINANCE],
            &[b"\x05note\x00", FINANCE, OWNER_FINANCE],
        ),
        (&[BY_AUDIT, MEMO], &[BY_AUDIT, b"\x05memo\x00", FINANCE]),
        (
            &[OWNER_FINANCE, BY_AUDIT, NOTE, MEMO],
            &[
                OWNER_FINANCE,
                BY_AUDIT,
                b"\x05note\x00",
                FINANCE,
                b"\x05memo\x00",
                FINANCE_SECOND,
            ],
        ),
    ];
    seals_each(&rt, rt.alloc(), cases);
}

#[test]
fn a_target_stands_behind_its_value_or_outside_its_document(rt: HostRuntime) {
    let cases: &[(&[&[u8]], &[&[u8]])] = &[
        (
            &[AT_FILE, NOTE, OWNER],
            &[b"\x05file\x00", HR, b"\x05note\x00", HR_SECOND, OWNER],
        ),
        (
            &[NOTE, AT_FILE, OWNER],
            &[b"\x05note\x00", HR, b"\x05file\x00", HR_SECOND, OWNER],
        ),
        (
            &[
                b"\x03sum\x00\x19\x00\x00\x00\x02owner\x00\x02\x00\x00\x00x\x00\x10x\x00\x07\x00\x00\x00\x00",
                OWNER,
            ],
            &[
                b"\x03sum\x00l\x00\x00\x00\x02owner\x00\x02\x00\x00\x00x\x00\x05x\x00",
                HR,
                b"\x00",
                OWNER,
            ],
        ),
    ];
    seals_each(&rt, rt.alloc(), cases);
}

#[test]
fn names_are_any_bytes(rt: HostRuntime) {
    let cases: &[(&[&[u8]], &[&[u8]])] = &[
        (
            &[b"\x02owner\x00\x01\x00\x00\x00\x00", NOTE],
            &[
                b"\x02owner\x00\x01\x00\x00\x00\x00",
                b"\x05note\x00",
                NAMELESS,
            ],
        ),
        (
            &[b"\x02owner\x00\x04\x00\x00\x00k\x00n\x00", NOTE],
            &[
                b"\x02owner\x00\x04\x00\x00\x00k\x00n\x00",
                b"\x05note\x00",
                NAMELESS,
            ],
        ),
        (
            &[
                b"\x03$a\x00\x15\x00\x00\x00\x02b.c\x00\x07\x00\x00\x00hr-key\x00\x00",
                b"\x10odd\x00\x07\x00\x00\x00",
            ],
            &[
                b"\x03$a\x00\x15\x00\x00\x00\x02b.c\x00\x07\x00\x00\x00hr-key\x00\x00",
                b"\x05odd\x00",
                HR,
            ],
        ),
    ];
    seals_each(&rt, rt.alloc(), cases);
}

#[test]
fn each_document_names_its_own_keys(rt: HostRuntime) {
    let alloc = rt.alloc();
    let keys = vault(&rt, alloc);
    let first = insert(&rt, alloc, FILE, &[OWNER, NOTE]);
    let second = insert(&rt, alloc, FILE, &[OWNER_FINANCE, NOTE]);
    let input = joined(&rt, alloc, &[&first, &second]);
    let first = insert(&rt, alloc, FILE, &[OWNER, b"\x05note\x00", HR]);
    let second = insert(
        &rt,
        alloc,
        FILE,
        &[OWNER_FINANCE, b"\x05note\x00", FINANCE_SECOND],
    );
    let sealed = joined(&rt, alloc, &[&first, &second]);
    writes(&rt, alloc, named(&keys, &input), &sealed);
    writes(&rt, alloc, named(&keys, TWO_DOCUMENTS), TWO_SEALED);
}

#[test]
fn a_target_beside_a_rule_for_all_other_fields_is_listed(rt: HostRuntime) {
    let alloc = rt.alloc();
    let keys = vault(&rt, alloc);
    let command = insert(&rt, alloc, SHUT, &[OWNER, b"\x10n\x00\x07\x00\x00\x00"]);
    let sealed = insert(&rt, alloc, SHUT, &[OWNER, b"\x05n\x00", HR]);
    seals_named(&rt, alloc, named(&keys, &command), &sealed);
    let command = insert(&rt, alloc, OPEN, &[OWNER]);
    refuses_named(&rt, alloc, &command, "fle: 1 1 23 1.0.0\n");
    let command = insert(&rt, alloc, SHUT, &[b"\x10n\x00\x07\x00\x00\x00"]);
    refuses_named(&rt, alloc, &command, "fle: 1 1 23 1.0.0\n");
}

/// The run over the insert of `finance` and of 7, and this reply to it, must write this, and end with this line.
fn answers(rt: &impl Abort, alloc: Global, reply: &[u8], status: Status, out: &[u8], line: &str) {
    let keys = vault(rt, alloc);
    let command = insert(rt, alloc, FILE, &[OWNER_FINANCE, NOTE]);
    let pair = joined(rt, alloc, &[&command, reply]);
    let run = Run {
        words: &ENCRYPT_WITH,
        ..named(&keys, &pair)
    };
    expect(rt, alloc, run, status, out, line);
}

#[test]
fn a_reply_names_the_key_as_the_document_does(rt: HostRuntime) {
    let alloc = rt.alloc();
    let sealed = insert(&rt, alloc, FILE, &[OWNER_FINANCE, b"\x05note\x00", FINANCE]);
    for reply in [RIGHT, TURNED] {
        answers(&rt, alloc, reply, Status::Done, &sealed, "");
    }
    let wrong: &[&[u8]] = &[OTHER_NAME, BY_ID, SYMBOL];
    for reply in wrong {
        answers(&rt, alloc, reply, Status::Refused, b"", "fle: 1 2 26 2\n");
    }
}
