//! What the errors of keys and sealed values print.
use encrypt_schema::InfoFault;
use fle_aead::OpenFault;
use local_kms::{MasterFault, UnwrapFault};
use payload6::PayloadFault;
use std::alloc::AllocError;

/// A tag as it would have to be.
const COMPUTED: [u8; 32] = [0xa7; 32];

/// A tag as it stands.
const FOUND: [u8; 32] = [0x5c; 32];

#[test]
fn no_tag_is_printed(rt: HostRuntime) -> Result<(), AllocError> {
    let message = OpenFault::Tag {
        computed: COMPUTED,
        found: FOUND,
    };
    let payload = PayloadFault::Tag {
        computed: COMPUTED,
        found: FOUND,
    };
    let material = UnwrapFault::Tag {
        computed: COMPUTED,
        found: FOUND,
    };
    let told = format!(in rt.alloc(); "{message:?} {payload:?} {material:?}")?;
    assert!(rt; told.as_str() == "Tag Tag Tag");
    Ok(())
}

#[test]
fn other_refusals_are_printed_by_their_names(rt: HostRuntime) -> Result<(), AllocError> {
    let (short, message) = (OpenFault::Short, OpenFault::Padding);
    let (payload, plain) = (PayloadFault::Padding, PayloadFault::Plain);
    let (length, material) = (UnwrapFault::Length, UnwrapFault::Padding);
    let told = format!(in rt.alloc(); "{short:?} {message:?} {payload:?} {plain:?}")?;
    assert!(rt; told.as_str() == "Short Padding Padding Plain");
    let told = format!(in rt.alloc(); "{length:?} {material:?}")?;
    assert!(rt; told.as_str() == "Length Padding");
    Ok(())
}

#[test]
fn a_refused_file_has_one_message(rt: HostRuntime) -> Result<(), AllocError> {
    let (length, base64) = (MasterFault::Length, MasterFault::Base64);
    let told = format!(in rt.alloc(); "{length}, {base64}")?;
    assert!(rt; told.as_str() == "master key refused, master key refused");
    let infos = InfoFault::Memory;
    let told = format!(in rt.alloc(); "{infos}")?;
    assert!(rt; told.as_str() == "collection infos refused");
    Ok(())
}
