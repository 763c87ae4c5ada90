//! The standard's blocks through each kind of hooks, and what is refused.
ghost use Rattle.std.specs.Prelude.{◌≡◌};
ghost use Rattle.aes_block.specs.Cipher as fips;

use aes_block::{Schedule, cipher, cipher_tables, expand, inv_cipher_tables};
use cbc_mode::{CbcFault, cbc_open_into, cbc_seal_into, padded_len};
use crypto_hooks::{Block256, BlockBox, BoxHooks, Hooks, Tables};
use fle_vectors::CBC_AES256;
use std::alloc::AllocError;

// SP 800-38A, F.2.5 and F.2.6: four blocks, whose last bytes are no padding.
fn agrees_with_the_standard<B: Block256>(hooks: &B) -> bool
    requires { B.answers hooks.now }
{
    let schedule = expand(&CBC_AES256.key);
    let mut sealed = [0; 80];
    cbc_seal_into(
        hooks,
        &schedule,
        CBC_AES256.iv,
        &CBC_AES256.plain,
        &mut sealed,
    );
    let mut opened = [0; 64];
    let answer = cbc_open_into(
        hooks,
        &schedule,
        CBC_AES256.iv,
        &CBC_AES256.sealed,
        &mut opened,
    );
    sealed.starts_with(&CBC_AES256.sealed)
        && opened == CBC_AES256.plain
        && answer == Err(CbcFault::Padding)
}

#[test]
fn tables_agree_with_the_standard(rt: HostRuntime) {
    assert!(rt; agrees_with_the_standard(&Tables));
}

#[test]
fn closures_agree_with_the_standard(rt: HostRuntime) {
    let hooks = Hooks::new(
        |s: &Schedule, b: [u8; 16]| -> [u8; 16]
            ensures { result ≡ fips.cipher s.entry.now b }
        { cipher_tables(s, b) },
        |s: &Schedule, b: [u8; 16]| -> [u8; 16]
            ensures { result ≡ fips.inv_cipher s.entry.now b }
        { inv_cipher_tables(s, b) },
    );
    assert!(rt; agrees_with_the_standard(&hooks));
}

#[test]
fn boxed_closures_agree_with_the_standard(rt: HostRuntime) -> Result<(), AllocError> {
    let seal: BlockBox = Box::new(
        rt.alloc(),
        |s: &Schedule, b: [u8; 16]| -> [u8; 16]
            ensures { result ≡ fips.cipher s.entry.now b }
        { cipher_tables(s, b) },
    )?;
    let unseal: BlockBox = Box::new(
        rt.alloc(),
        |s: &Schedule, b: [u8; 16]| -> [u8; 16]
            ensures { result ≡ fips.inv_cipher s.entry.now b }
        { inv_cipher_tables(s, b) },
    )?;
    assert!(rt; agrees_with_the_standard(&BoxHooks::new(seal, unseal)));
    Ok(())
}

#[test]
fn no_bytes_are_sealed_to_a_block_of_padding(rt: HostRuntime) {
    let schedule = expand(&CBC_AES256.key);
    let mut sealed = [0; 16];
    cbc_seal_into(&Tables, &schedule, CBC_AES256.iv, &[], &mut sealed);
    let mut opened = [0; 16];
    let answer = cbc_open_into(&Tables, &schedule, CBC_AES256.iv, &sealed, &mut opened);
    assert!(rt; padded_len(0) == 16);
    assert!(rt; answer == Ok(0));
    assert!(rt; opened == [16; 16]);
}

#[test]
fn lengths_of_no_whole_blocks_are_refused(rt: HostRuntime) {
    let schedule = expand(&CBC_AES256.key);
    let mut out = [7; 17];
    let empty = cbc_open_into(&Tables, &schedule, CBC_AES256.iv, &[], &mut out);
    assert!(rt; empty == Err(CbcFault::Blocks));
    let odd = cbc_open_into(&Tables, &schedule, CBC_AES256.iv, &[0; 17], &mut out);
    assert!(rt; odd == Err(CbcFault::Blocks));
    assert!(rt; out == [7; 17]);
}

// The block opens to zeros, which are the padding of no message.
#[test]
fn a_block_of_zeros_is_no_padding(rt: HostRuntime) {
    let schedule = expand(&CBC_AES256.key);
    let sealed = cipher(&schedule, CBC_AES256.iv);
    let mut out = [7; 17];
    let answer = cbc_open_into(&Tables, &schedule, CBC_AES256.iv, &sealed, &mut out);
    assert!(rt; answer == Err(CbcFault::Padding));
    assert!(rt; out == [0, 0, 0, 0, 0, 0, 0, 0, 0, 0, 0, 0, 0, 0, 0, 0, 7]);
}
