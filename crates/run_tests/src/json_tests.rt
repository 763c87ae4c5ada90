//! Whole runs under collection infos in JSON.

use crate::runs::{Run, marking, sealing, seals, stops, writes};
use fle_stream::Status;
use sample_documents::{INSERT, REPLY, SEALED_INSERT};

/// `ssn` of `people` is deterministic and a string.
const RULES: &[u8] =
    b"[{\"name\":\"people\",\"options\":{\"validator\":{\"$jsonSchema\":{\"properties\":{\"ssn\":{\"\
     encrypt\":{\"keyId\":[{\"$uuid\":\"00112233-4455-4677-8899-aabbccddeeff\"}],\"algorithm\":\"AEA\
     D_AES_256_CBC_HMAC_SHA_512-Deterministic\",\"bsonType\":\"string\"}}}}}}}]";

/// The reply to the same command without rules, 168 bytes.
const UNRULED_REPLY: &[u8] =
    b"\xa8\x00\x00\x00\x08hasEncryptionPlaceholders\x00\x00\x08schemaRequiresEncryption\x00\x00\x03r\
     esult\x00X\x00\x00\x00\x02insert\x00\x07\x00\x00\x00people\x00\x04documents\x00)\x00\x00\x00\
     \x030\x00!\x00\x00\x00\x02ssn\x00\x0c\x00\x00\x00123-45-6789\x00\x10n\x00\x01\x00\x00\x00\x00\
     \x00\x02$db\x00\x03\x00\x00\x00hr\x00\x00\x01ok\x00\x00\x00\x00\x00\x00\x00\xf0?\x00";

#[test]
fn a_command_is_sealed_under_rules_in_json(rt: HostRuntime) {
    let cases: &[(&[u8], &[u8], &[u8])] = &[
        (RULES, REPLY, SEALED_INSERT),
        (b"[]", UNRULED_REPLY, INSERT),
    ];
    for (infos, reply, sealed) in cases {
        let run = Run {
            infos: &[*infos],
            ..marking(INSERT)
        };
        writes(&rt, rt.alloc(), run, reply);
        let run = Run {
            infos: &[*infos],
            ..sealing(INSERT)
        };
        seals(&rt, rt.alloc(), run, sealed);
    }
}

#[test]
fn the_fault_of_a_json_text_is_told_with_its_member(rt: HostRuntime) {
    let cases: &[(&[u8], &str)] = &[
        (b"[1]", "fle: 4 2 34 1\n"),
        (b"[{]", "fle: 4 2 33 0\n"),
        (b"{\"a\":1}", "fle: 4 2 34 0\n"),
    ];
    for (infos, line) in cases {
        let run = Run {
            infos: &[*infos],
            ..sealing(INSERT)
        };
        stops(&rt, rt.alloc(), run, Status::Setup, line);
    }
}
