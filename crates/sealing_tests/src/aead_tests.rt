//! Values that were sealed outside this repository, and what is refused.
use crypto_hooks::Tables;
use fle_aead::{DataKey, OpenFault, derive_iv, open_into, seal_into, sealed_len};
use fle_vectors::{AEAD_B3, DATA_KEY};
use std::alloc::AllocError;

/// The associated data of a string that is sealed under a derived IV: 01, the key's id, 02.
const AAD: [u8; 18] = [
    0x01, 0x00, 0x11, 0x22, 0x33, 0x44, 0x55, 0x46, 0x77, 0x88, 0x99, 0xaa, 0xbb, 0xcc, 0xdd, 0xee,
    0xff, 0x02,
];

/// The string "123-45-6789" as BSON has it: its length, its bytes and 00.
const PLAIN: [u8; 16] = [
    0x0c, 0x00, 0x00, 0x00, 0x31, 0x32, 0x33, 0x2d, 0x34, 0x35, 0x2d, 0x36, 0x37, 0x38, 0x39, 0x00,
];

/// What these are sealed to, as Python's hmac and OpenSSL's AES-256-CBC have it.
const SEALED: [u8; 80] = [
    0x4e, 0x3a, 0x4a, 0x3b, 0xc6, 0x4c, 0x5c, 0x49, 0x96, 0x01, 0xbe, 0xff, 0xad, 0x19, 0xd3, 0xc2,
    0x61, 0xa5, 0x9f, 0xe4, 0x7a, 0x66, 0xa6, 0xd8, 0x62, 0x8e, 0xc3, 0x0e, 0x92, 0x07, 0x4c, 0xb1,
    0xd4, 0xea, 0x70, 0xd8, 0x0f, 0x61, 0x15, 0x2e, 0x7b, 0x77, 0xb8, 0xbb, 0xc4, 0x38, 0x75, 0xcf,
    0x56, 0x6c, 0x13, 0xfa, 0xfa, 0x1f, 0x47, 0x3e, 0xa4, 0xaf, 0x47, 0x0a, 0x52, 0x93, 0xdb, 0x37,
    0xb7, 0x11, 0x10, 0x75, 0x67, 0x7c, 0x79, 0xc4, 0xc0, 0x7b, 0xa0, 0x4f, 0xc1, 0x62, 0x10, 0x0b,
];

/// An IV, a block that opens to zeros, and its tag, made in the same way.
const WRONGLY_PADDED: [u8; 64] = [
    0x00, 0x01, 0x02, 0x03, 0x04, 0x05, 0x06, 0x07, 0x08, 0x09, 0x0a, 0x0b, 0x0c, 0x0d, 0x0e, 0x0f,
    0x9f, 0xd4, 0x2b, 0x08, 0xb2, 0x5d, 0xa6, 0x6f, 0x1d, 0x63, 0x59, 0xfd, 0xb0, 0x6f, 0xc7, 0x4b,
    0x2b, 0x7d, 0x29, 0xc9, 0xf3, 0x37, 0x44, 0x85, 0x56, 0x39, 0x72, 0xd4, 0xac, 0x8b, 0x11, 0xb9,
    0x84, 0x64, 0x65, 0x8d, 0xe3, 0x61, 0xc7, 0x18, 0xbe, 0x03, 0x5a, 0xe4, 0x26, 0x05, 0x07, 0x00,
];

/// The tag of 32 bytes of 00, made in the same way.
const TAG_OF_ZEROS: [u8; 32] = [
    0x58, 0xf8, 0x01, 0x68, 0xf2, 0xcd, 0x11, 0xce, 0xc8, 0xf3, 0x76, 0x02, 0xe0, 0xa0, 0x6b, 0x5d,
    0x08, 0x0b, 0x29, 0xfa, 0x05, 0x9c, 0x5b, 0x10, 0xb4, 0xe2, 0xfc, 0x0a, 0x82, 0xf2, 0xf4, 0x19,
];

#[test]
fn a_value_is_sealed_and_opened_as_elsewhere(rt: HostRuntime) {
    let key = DataKey::new(DATA_KEY);
    assert!(rt; *key.bytes() == DATA_KEY);
    assert!(rt; sealed_len(16) == 80);
    let iv = derive_iv(&key, &AAD, &PLAIN);
    let mut sealed = [0; 80];
    seal_into(&Tables, &key, &AAD, iv, &PLAIN, &mut sealed);
    assert!(rt; sealed == SEALED);
    let mut out = [0; 80];
    let answer = open_into(&Tables, &key, &AAD, &SEALED, &mut out);
    assert!(rt; answer == Ok(16));
    assert!(rt; out.starts_with(&PLAIN));
}

#[test]
fn a_copy_of_a_key_opens_what_the_key_sealed(rt: HostRuntime) -> Result<(), AllocError> {
    let key = DataKey::new(DATA_KEY).clone()?;
    let mut out = [0; 80];
    let answer = open_into(&Tables, &key, &AAD, &SEALED, &mut out);
    assert!(rt; answer == Ok(16));
    Ok(())
}

#[test]
fn lengths_of_no_sealed_message_are_refused(rt: HostRuntime) {
    let key = DataKey::new(DATA_KEY);
    let mut out = [7; 64];
    let no_block = open_into(&Tables, &key, &AAD, &[0; 48], &mut out);
    assert!(rt; no_block == Err(OpenFault::Short));
    let part_of_a_block = open_into(&Tables, &key, &AAD, &[0; 63], &mut out);
    assert!(rt; part_of_a_block == Err(OpenFault::Short));
    assert!(rt; out == [7; 64]);
}

#[test]
fn a_wrong_tag_is_refused_with_both_tags(rt: HostRuntime) {
    let key = DataKey::new(DATA_KEY);
    let mut out = [7; 64];
    let answer = open_into(&Tables, &key, &AAD, &[0; 64], &mut out);
    let wrong = OpenFault::Tag {
        computed: TAG_OF_ZEROS,
        found: [0; 32],
    };
    assert!(rt; answer == Err(wrong));
    assert!(rt; out == [7; 64]);
}

#[test]
fn a_wrong_padding_under_a_right_tag_is_refused(rt: HostRuntime) {
    let key = DataKey::new(DATA_KEY);
    let mut out = [7; 64];
    let answer = open_into(&Tables, &key, &AAD, &WRONGLY_PADDED, &mut out);
    assert!(rt; answer == Err(OpenFault::Padding));
}

/// The data key that begins with the two keys of RFC 7518, B.3. The third has no part there.
fn key_of_b3() -> DataKey {
    let mut bytes = [0; 96];
    bytes[..64].copy_from_slice(&AEAD_B3.key);
    DataKey::new(bytes)
}

/// Its sealed message: IV, blocks and tag.
fn sealed_of_b3() -> [u8; 192] {
    let mut sealed = [0; 192];
    sealed[..16].copy_from_slice(&AEAD_B3.iv);
    sealed[16..160].copy_from_slice(&AEAD_B3.sealed);
    sealed[160..].copy_from_slice(&AEAD_B3.tag);
    sealed
}

/// Whether the sealed bytes, one of them changed, are refused for their tag.
fn refused_with_change_at(at: usize) -> bool {
    let mut sealed = sealed_of_b3();
    if at < sealed.len() {
        sealed[at] ^= 1;
    }
    let mut out = [7; 192];
    let answer = open_into(&Tables, &key_of_b3(), &AEAD_B3.aad, &sealed, &mut out);
    out == [7; 192] && matches!(answer, Err(OpenFault::Tag { .. }))
}

// RFC 7518, B.3.
#[test]
fn the_message_of_rfc_7518_is_sealed_and_opened(rt: HostRuntime) {
    let key = key_of_b3();
    let mut sealed = [0; 192];
    seal_into(
        &Tables,
        &key,
        &AEAD_B3.aad,
        AEAD_B3.iv,
        &AEAD_B3.plain,
        &mut sealed,
    );
    assert!(rt; sealed == sealed_of_b3());
    let mut out = [0; 192];
    let answer = open_into(&Tables, &key, &AEAD_B3.aad, &sealed, &mut out);
    assert!(rt; answer == Ok(128));
    assert!(rt; out.starts_with(&AEAD_B3.plain));
}

// RFC 7518, B.3, with one byte changed: of the IV, of the blocks, of the tag and of the associated data.
#[test]
fn the_message_of_rfc_7518_is_refused_where_a_byte_is_changed(rt: HostRuntime) {
    assert!(rt; refused_with_change_at(3));
    assert!(rt; refused_with_change_at(100));
    assert!(rt; refused_with_change_at(160));
    assert!(rt; refused_with_change_at(191));
    let mut aad = AEAD_B3.aad;
    aad[41] ^= 1;
    let mut out = [7; 192];
    let answer = open_into(&Tables, &key_of_b3(), &aad, &sealed_of_b3(), &mut out);
    assert!(rt; matches!(answer, Err(OpenFault::Tag { .. })));
}
