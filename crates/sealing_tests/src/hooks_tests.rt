//! The standard's block through each kind of hooks.
use aes_block::expand;
use crypto_hooks::{Block256, Tables, there_and_back, there_and_back_boxed, two_there_and_back};
use fle_vectors::BLOCK_C3;
use std::alloc::AllocError;

// FIPS 197, C.3.
#[test]
fn the_standards_block_is_sealed_and_opened(rt: HostRuntime) {
    let schedule = expand(&BLOCK_C3.key);
    assert!(rt; Tables.seal_block(&schedule, BLOCK_C3.plain) == BLOCK_C3.sealed);
    assert!(rt; Tables.open_block(&schedule, BLOCK_C3.sealed) == BLOCK_C3.plain);
}

#[test]
fn closures_lead_there_and_back(rt: HostRuntime) {
    let schedule = expand(&BLOCK_C3.key);
    assert!(rt; there_and_back(&schedule, BLOCK_C3.plain) == BLOCK_C3.plain);
}

#[test]
fn boxed_closures_lead_there_and_back(rt: HostRuntime) -> Result<(), AllocError> {
    let schedule = expand(&BLOCK_C3.key);
    assert!(rt; there_and_back_boxed(rt.alloc(), &schedule, BLOCK_C3.plain)? == BLOCK_C3.plain);
    Ok(())
}

// FIPS 197, C.3, beside a block of zeros.
#[test]
fn two_blocks_are_opened_in_their_order(rt: HostRuntime) {
    let schedule = expand(&BLOCK_C3.key);
    let zeros = Tables.seal_block(&schedule, [0; 16]);
    assert!(rt; Tables.open_two(&schedule, BLOCK_C3.sealed, zeros) == (BLOCK_C3.plain, [0; 16]));
    assert!(rt;
        two_there_and_back(&schedule, BLOCK_C3.plain, [0; 16]) == (BLOCK_C3.plain, [0; 16])
    );
}
