//! Whole runs over files: vaults, collection infos and master keys that are read, or whose fault is told.

use crate::keys_tests::VAULT;
use crate::runs::{Run, joined, marking, sealing, seals, stops, writes};
use fle_stream::Status;
use sample_documents::{INSERT, PEOPLE, SEALED_INSERT, STAFF_INFO};

/// An info of `people` with `ssn` deterministic and a double.
const DOUBLE: &[u8] =
    b"\xf8\x00\x00\x00\x02name\x00\x07\x00\x00\x00people\x00\x02type\x00\x0b\x00\x00\x00collection\
     \x00\x03options\x00\xc4\x00\x00\x00\x03validator\x00\xb4\x00\x00\x00\x03$jsonSchema\x00\xa2\x00\
     \x00\x00\x03properties\x00\x91\x00\x00\x00\x03ssn\x00\x87\x00\x00\x00\x03encrypt\x00y\x00\x00\
     \x00\x04keyId\x00\x1d\x00\x00\x00\x050\x00\x10\x00\x00\x00\x04\x00\x11\x223DUFw\x88\x99\xaa\xbb\
     \xcc\xdd\xee\xff\x00\x02algorithm\x00,\x00\x00\x00AEAD_AES_256_CBC_HMAC_SHA_512-Deterministic\
     \x00\x02bsonType\x00\x07\x00\x00\x00double\x00\x00\x00\x00\x00\x00\x00\x00";

/// The info of `notes`, which has no schema.
pub(crate) const NOTES: &[u8] =
    b"8\x00\x00\x00\x02name\x00\x06\x00\x00\x00notes\x00\x02type\x00\x0b\x00\x00\x00collection\x00\
     \x03options\x00\x05\x00\x00\x00\x00\x00";

/// `{insert: "staff", documents: [{c: int 1}], $db: "hr"}`.
const BESIDE: &[u8] =
    b"B\x00\x00\x00\x02insert\x00\x06\x00\x00\x00staff\x00\x04documents\x00\x14\x00\x00\x00\x030\x00\
     \x0c\x00\x00\x00\x10c\x00\x01\x00\x00\x00\x00\x00\x02$db\x00\x03\x00\x00\x00hr\x00\x00";

/// Its reply, 146 bytes: no value is marked, and the collection has rules.
const BESIDE_REPLY: &[u8] =
    b"\x92\x00\x00\x00\x08hasEncryptionPlaceholders\x00\x00\x08schemaRequiresEncryption\x00\x01\x03r\
     esult\x00B\x00\x00\x00\x02insert\x00\x06\x00\x00\x00staff\x00\x04documents\x00\x14\x00\x00\x00\
     \x030\x00\x0c\x00\x00\x00\x10c\x00\x01\x00\x00\x00\x00\x00\x02$db\x00\x03\x00\x00\x00hr\x00\x00\
     \x01ok\x00\x00\x00\x00\x00\x00\x00\xf0?\x00";

/// `MASTER` in base64, and a line feed.
const MASTER_AS_TEXT: &[u8] =
    b"AAECAwQFBgcICQoLDA0ODxAREhMUFRYXGBkaGxwdHh8gISIjJCUmJygpKissLS4vMDEyMzQ1Njc4OTo7PD0+P0BBQkNER\
     UZHSElKS0xNTk9QUVJTVFVWV1hZWltcXV5f\x0a";

#[test]
fn the_first_faulty_info_is_told_with_its_fault(rt: HostRuntime) {
    let cases: &[(&[&[u8]], &str, &str)] = &[
        (&[PEOPLE, b"\x01"], "fle: 4 1 30 2\n", "fle: 4 2 30 2\n"),
        (
            &[PEOPLE, b"\x05\x00\x00\x00\x00"],
            "fle: 4 1 31 2\n",
            "fle: 4 2 31 2\n",
        ),
        (&[NOTES, NOTES], "fle: 4 1 32 2\n", "fle: 4 2 32 2\n"),
        (&[DOUBLE, STAFF_INFO], "fle: 4 1 49 1\n", "fle: 4 2 49 1\n"),
        (&[STAFF_INFO, DOUBLE], "fle: 4 1 49 2\n", "fle: 4 2 49 2\n"),
    ];
    for (infos, first, second) in cases {
        let run = Run {
            infos,
            ..marking(INSERT)
        };
        stops(&rt, rt.alloc(), run, Status::Setup, first);
        let run = Run {
            infos,
            ..sealing(INSERT)
        };
        stops(&rt, rt.alloc(), run, Status::Setup, second);
    }
}

#[test]
fn the_reply_says_whether_the_collection_has_rules(rt: HostRuntime) {
    writes(&rt, rt.alloc(), marking(BESIDE), BESIDE_REPLY);
}

#[test]
fn files_that_are_missing_are_told_in_the_order_of_the_words(rt: HostRuntime) {
    let forms: &[(&[&str], &str)] = &[
        (&["mark", "hr", "none"], "fle: 4 1 1 0\n"),
        (&["encrypt", "hr", "none", "none", "none"], "fle: 4 1 1 0\n"),
        (&["encrypt", "hr", "keys", "none", "none"], "fle: 4 2 1 0\n"),
        (
            &["encrypt", "hr", "keys", "infos", "none"],
            "fle: 4 3 1 0\n",
        ),
        (&["decrypt", "none", "master"], "fle: 4 1 1 0\n"),
        (&["decrypt", "keys", "none"], "fle: 4 2 1 0\n"),
        (&["keygen", "none"], "fle: 4 1 1 0\n"),
    ];
    for (words, line) in forms {
        let run = Run {
            words,
            ..marking(INSERT)
        };
        stops(&rt, rt.alloc(), run, Status::Setup, line);
    }
}

#[test]
fn files_at_fault_are_told_in_the_order_of_the_words(rt: HostRuntime) {
    let alloc = rt.alloc();
    let twice = joined(&rt, alloc, &[VAULT, VAULT]);
    let run = Run {
        keys: &twice,
        master: &[0; 95],
        ..sealing(INSERT)
    };
    stops(&rt, alloc, run, Status::Setup, "fle: 4 1 25 2\n");
    let run = Run {
        master: &[0; 95],
        ..sealing(INSERT)
    };
    stops(&rt, alloc, run, Status::Setup, "fle: 4 3 10 0\n");
    let run = Run {
        master: &[b'='; 128],
        ..sealing(INSERT)
    };
    stops(&rt, alloc, run, Status::Setup, "fle: 4 3 11 0\n");
}

#[test]
fn a_master_key_may_be_a_line_of_base64(rt: HostRuntime) {
    let run = Run {
        master: MASTER_AS_TEXT,
        ..sealing(INSERT)
    };
    seals(&rt, rt.alloc(), run, SEALED_INSERT);
}
