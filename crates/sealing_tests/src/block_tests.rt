use aes_block::{
    cipher, cipher_tables, expand, inv_cipher, inv_cipher_tables, inv_cipher_tables_pair,
};
use fle_vectors::{BLOCK_C3, EXPANSION_A3};
use std::alloc::AllocError;

// FIPS 197, A.3.
#[test]
fn fips197_a3_key_expansion(rt: HostRuntime) {
    let schedule = expand(&EXPANSION_A3.key);
    assert!(rt; *schedule.words() == EXPANSION_A3.words);
}

#[test]
fn a_clone_has_the_same_words(rt: HostRuntime) -> Result<(), AllocError> {
    let schedule = expand(&EXPANSION_A3.key).clone()?;
    assert!(rt; *schedule.words() == EXPANSION_A3.words);
    Ok(())
}

// FIPS 197, C.3.
#[test]
fn fips197_c3_step_by_step(rt: HostRuntime) {
    let schedule = expand(&BLOCK_C3.key);
    assert!(rt; cipher(&schedule, BLOCK_C3.plain) == BLOCK_C3.sealed);
    assert!(rt; inv_cipher(&schedule, BLOCK_C3.sealed) == BLOCK_C3.plain);
}

// FIPS 197, C.3.
#[test]
fn fips197_c3_by_tables(rt: HostRuntime) {
    let schedule = expand(&BLOCK_C3.key);
    assert!(rt; cipher_tables(&schedule, BLOCK_C3.plain) == BLOCK_C3.sealed);
    assert!(rt; inv_cipher_tables(&schedule, BLOCK_C3.sealed) == BLOCK_C3.plain);
}

// Two blocks, each told from the other.
#[test]
fn a_pair_is_opened_in_its_order(rt: HostRuntime) {
    let schedule = expand(&BLOCK_C3.key);
    let zeros = cipher(&schedule, [0; 16]);
    assert!(rt;
        inv_cipher_tables_pair(&schedule, BLOCK_C3.sealed, zeros) == (BLOCK_C3.plain, [0; 16])
    );
}
