//! The published MACs, through each of the three ways to make one.
use fle_vectors::{
    HMAC_SHA512_CASE_1, HMAC_SHA512_CASE_2, HMAC_SHA512_CASE_3, HMAC_SHA512_CASE_4,
    HMAC_SHA512_CASE_5, HMAC_SHA512_CASE_6, HMAC_SHA512_CASE_7, HmacVector,
};
use hmac_sha512::{KeyedMac, Mac, mac};
use std::alloc::AllocError;

/// The seven test cases of RFC 4231, 4.2 to 4.8.
const CASES: [HmacVector; 7] = [
    HMAC_SHA512_CASE_1,
    HMAC_SHA512_CASE_2,
    HMAC_SHA512_CASE_3,
    HMAC_SHA512_CASE_4,
    HMAC_SHA512_CASE_5,
    HMAC_SHA512_CASE_6,
    HMAC_SHA512_CASE_7,
];

#[test]
fn rfc_4231_cases_give_their_macs(rt: HostRuntime) {
    for case in &CASES {
        assert!(rt; mac(case.key, case.data).starts_with(case.mac));
    }
}

#[test]
fn a_message_in_parts_gives_the_mac_of_the_whole(rt: HostRuntime) {
    for case in &CASES {
        let mut running = Mac::new(case.key);
        for part in case.data.chunks(3) {
            running.update(part);
        }
        assert!(rt; running.finish().starts_with(case.mac));
    }
}

#[test]
fn a_kept_key_serves_a_second_message(rt: HostRuntime) {
    for case in &CASES {
        let keyed = KeyedMac::new(case.key);
        for _ in 0..2 {
            let mut running = keyed.begin();
            running.update(case.data);
            assert!(rt; running.finish().starts_with(case.mac));
        }
        let (front, back) = case.data.split_at(3);
        assert!(rt; keyed.compute(front, b"", back).starts_with(case.mac));
    }
}

#[test]
fn a_copy_of_a_kept_key_gives_the_same_mac(rt: HostRuntime) -> Result<(), AllocError> {
    let copy = KeyedMac::new(HMAC_SHA512_CASE_1.key).clone()?;
    let mut running = copy.begin();
    running.update(HMAC_SHA512_CASE_1.data);
    assert!(rt; running.finish().as_slice() == HMAC_SHA512_CASE_1.mac);
    Ok(())
}
