//! Whole runs over sealed documents: what `decrypt` passes on as it is, and for which reason and at which place it
//! refuses a payload.

use crate::runs::{Run, opening, stops, writes};
use crate::seal_tests::SEALED_RANDOM;
use fle_stream::Status;
use sample_documents::{REPLY, SEALED_INSERT};

/// `{insert: "notes", documents: [{s: a payload}], $db: "hr"}`; the payload is deterministic, of the text `x`, and
/// its IV, sixteen bytes 05, is of another client.
const FOREIGN: &[u8] =
    b"\x95\x00\x00\x00\x02insert\x00\x06\x00\x00\x00notes\x00\x04documents\x00g\x00\x00\x00\x030\
     \x00_\x00\x00\x00\x05s\x00R\x00\x00\x00\x06\x01\x00\x11\"3DUFw\x88\x99\xaa\xbb\xcc\xdd\xee\xff\
     \x02\x05\x05\x05\x05\x05\x05\x05\x05\x05\x05\x05\x05\x05\x05\x05\x05\xfejw\x9a\x7f>n\x03Z7\x11\
     \x10\x0c\xd9\x9fr\xab\x93~QC\x86i\xb7_\x12%\xf9\xa0z\x16\xaf\xaf \xb0\xb7\x12}^\x84\xa5\xb2\
     \xf9\xd7s\xd3\x1dr\x00\x00\x02$db\x00\x03\x00\x00\x00hr\x00\x00";

/// The same with the text `x`.
const FOREIGN_OPENED: &[u8] =
    b"D\x00\x00\x00\x02insert\x00\x06\x00\x00\x00notes\x00\x04documents\x00\x16\x00\x00\x00\x030\
     \x00\x0e\x00\x00\x00\x02s\x00\x02\x00\x00\x00x\x00\x00\x00\x02$db\x00\x03\x00\x00\x00hr\x00\
     \x00";

/// `{insert: "notes", documents: [{s: a payload whose tag is wrong, p: a binary of subtype 06 of three bytes}], $db:
/// "hr"}`.
const SHAPES: &[u8] =
    b"\xb0\x00\x00\x00\x02insert\x00\x06\x00\x00\x00notes\x00\x04documents\x00\x82\x00\x00\x00\x030\
     \x00z\x00\x00\x00\x05s\x00b\x00\x00\x00\x06\x01\x00\x11\"3DUFw\x88\x99\xaa\xbb\xcc\xdd\xee\xff\
     \x02N:J;\xc6L\\I\x96\x01\xbe\xff\xad\x19\xd3\xc2a\xa5\x9f\xe4zf\xa6\xd8b\x8e\xc3\x0e\x92\x07L\
     \xb1\xd4\xeap\xd8\x0fa\x15.{w\xb8\xbb\xc48u\xcfVl\x13\xfa\xfa\x1fG>\xa4\xafG\x0aR\x93\xdb7\xb7\
     \x11\x10ug|y\xc4\xc0{\xa0O\xc1b\x10\x0a\x05p\x00\x03\x00\x00\x00\x06\x01\x02\x03\x00\x00\x02$d\
     b\x00\x03\x00\x00\x00hr\x00\x00";

/// The payload of three bytes that are to spell an int.
const PLAIN: &[u8] =
    b"\x95\x00\x00\x00\x02insert\x00\x06\x00\x00\x00notes\x00\x04documents\x00g\x00\x00\x00\x030\
     \x00_\x00\x00\x00\x05s\x00R\x00\x00\x00\x06\x02\x00\x11\"3DUFw\x88\x99\xaa\xbb\xcc\xdd\xee\xff\
     \x10\x05\x05\x05\x05\x05\x05\x05\x05\x05\x05\x05\x05\x05\x05\x05\x05\x0e%-z\x08\xd4\x95\x00\
     \xa0}/{\x14\x7f\xc4\xf1\xbb\x1e\xa5\x0b\xe2\x165\xb3,\x01\x81N\x89\xd8K_\x1e\xeb\x92\x8f/\xb3\
     \x12\xef\xe0u\xa0\xd5`\x92e<\x00\x00\x02$db\x00\x03\x00\x00\x00hr\x00\x00";

/// A payload over a block of sixteen bytes 00, which is no padding.
const PADDING: &[u8] =
    b"\x95\x00\x00\x00\x02insert\x00\x06\x00\x00\x00notes\x00\x04documents\x00g\x00\x00\x00\x030\
     \x00_\x00\x00\x00\x05s\x00R\x00\x00\x00\x06\x02\x00\x11\"3DUFw\x88\x99\xaa\xbb\xcc\xdd\xee\xff\
     \x02\x05\x05\x05\x05\x05\x05\x05\x05\x05\x05\x05\x05\x05\x05\x05\x05\xdaY\x9f^\xd2R7\xbfm\xfd\
     \x16\xc5\x11\xcfI\x1e\xbbl\xa6\xe1'\xd2\xcf\xc7\x96\x86\x9b\xf3\xd1o\xae\xbd\x93r\xd1Ov\xf7*\
     \x08\x18\x80\x0a\xc0X\xba'\xb6\x00\x00\x02$db\x00\x03\x00\x00\x00hr\x00\x00";

#[test]
fn what_is_no_payload_or_of_another_client_is_no_fault(rt: HostRuntime) {
    let cases: &[(&[u8], &[u8])] = &[(REPLY, REPLY), (FOREIGN, FOREIGN_OPENED)];
    for (document, opened) in cases {
        writes(&rt, rt.alloc(), opening(document), opened);
    }
}

#[test]
fn shapes_come_before_tags_and_tags_before_contents(rt: HostRuntime) {
    let cases: &[(&[u8], &str)] = &[
        (SHAPES, "fle: 1 1 19 1.0.1\n"),
        (PLAIN, "fle: 1 1 22 1.0.0\n"),
        (PADDING, "fle: 1 1 21 1.0.0\n"),
    ];
    for (document, line) in cases {
        stops(&rt, rt.alloc(), opening(document), Status::Refused, line);
    }
}

#[test]
fn a_key_under_another_master_key_is_damaged(rt: HostRuntime) {
    let run = Run {
        master: &[0x40; 96],
        ..opening(SEALED_INSERT)
    };
    stops(&rt, rt.alloc(), run, Status::Refused, "fle: 1 1 18 1.0.0\n");
}

#[test]
fn the_type_of_a_payload_is_under_its_tag(rt: HostRuntime) {
    let mut changed = *SEALED_INSERT;
    changed[72] = 0x0e;
    let run = opening(&changed);
    stops(&rt, rt.alloc(), run, Status::Refused, "fle: 1 1 20 1.0.0\n");
}

/// The payload of `SEALED_RANDOM` begins at byte 58: its kind, the key's id, the value's type, then what is sealed.
#[test]
fn each_byte_of_a_payload_is_watched(rt: HostRuntime) {
    let cases: &[(usize, usize, &str)] = &[
        (59, 75, "fle: 1 1 16 1.0.0\n"),
        (75, 140, "fle: 1 1 20 1.0.0\n"),
    ];
    for (from, to, line) in cases {
        for at in *from..*to {
            let mut changed = *SEALED_RANDOM;
            if let Some(byte) = changed.get_mut(at) {
                *byte ^= 1;
            }
            stops(&rt, rt.alloc(), opening(&changed), Status::Refused, line);
        }
    }
}

#[test]
fn a_payload_of_no_kind_that_is_sealed_here_passes(rt: HostRuntime) {
    let alloc = rt.alloc();
    let mut changed = *SEALED_RANDOM;
    changed[58] = 1;
    let run = opening(&changed);
    stops(&rt, alloc, run, Status::Refused, "fle: 1 1 20 1.0.0\n");
    for kind in [0, 3] {
        changed[58] = kind;
        writes(&rt, alloc, opening(&changed), &changed);
    }
}
