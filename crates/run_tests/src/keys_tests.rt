//! Whole runs over vaults in memory: the verb `keys`.

use crate::runs::{Run, joined, marking, stops, writes};
use fle_stream::Status;

/// A vault of one key, made outside this repository: sealed by Python's hmac and `cryptography`, written by a plain
/// program of BSON's grammar.
pub(crate) const VAULT: &[u8; 299] =
    b"+\x01\x00\x00\x05_id\x00\x10\x00\x00\x00\x04\x00\x11\"3DUFw\x88\x99\xaa\xbb\xcc\xdd\xee\xff\
    \x05keyMaterial\x00\xa0\x00\x00\x00\x00\xf0\xf1\xf2\xf3\xf4\xf5\xf6\xf7\xf8\xf9\xfa\xfb\xfc\xfd\
    \xfe\xff\xeb\x1b\xd9^L\x87\xa6\x0e\xd8P\xb5W\x90-U(\x88vkf\xbdJ)\xac.\xad't<\x08=\x9aP\x9a\x9b\
    \xca<b\xf8\xe5i\x02\"\xe2'\x98\xca\x9dS\xed|C\xa2\xd1\xf0\xd0\x01\x19 \xaf\xbfX7n\xad\x8a\xe8\
    \x14\x0dw\x08\xcc\xc2\x17#\xf8\xa1]{\x16\x0e\x140QE\x16\x9a\x08j\x90*+\x8e\xd8\xeb\xed\x17\xa4\
    \x1d\x03\x9f\x91n1\x86\x82\x91zZ\xb9\xdc|\x0c\xda\x9a\"n\xa1\x1c\x80\xbes\xeb\x8b\xeb\xbcv\x8b5\
    Uo$\xc2\xad\xf2\xf8\xb70\xb7\x16BD\x11\xcd\x09creationDate\x00\x00h\xe5\xcf\x8b\x01\x00\x00\x09\
    updateDate\x00\x00h\xe5\xcf\x8b\x01\x00\x00\x10status\x00\x00\x00\x00\x00\x03masterKey\x00\x19\
    \x00\x00\x00\x02provider\x00\x06\x00\x00\x00local\x00\x00\x00";

/// A run of `keys` over this vault.
fn listing(keys: &[u8]) -> Run<'_> {
    Run {
        words: &["keys", "keys"],
        keys,
        ..marking(b"")
    }
}

#[test]
fn a_key_is_told_in_one_line_and_an_id_once(rt: HostRuntime) {
    let cases: &[(&[u8], &[u8])] = &[
        (b"", b""),
        (VAULT, b"00112233-4455-4677-8899-aabbccddeeff local 0\n"),
    ];
    for (keys, out) in cases {
        writes(&rt, rt.alloc(), listing(keys), out);
    }
    let twice = joined(&rt, rt.alloc(), &[VAULT, VAULT]);
    let run = listing(&twice);
    stops(&rt, rt.alloc(), run, Status::Setup, "fle: 4 1 25 2\n");
}
