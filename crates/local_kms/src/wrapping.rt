//! Data keys sealed under a master key, and opened again.

ghost use Rattle.std.specs.Prelude.{◌≡◌, [], take};
ghost use Rattle.fle_aead.specs.Sealed.{IsSealed};
ghost use Rattle.local_kms.specs.Seen.{fault_seen, IsKeyOf};
ghost use Rattle.local_kms.specs.Wrapped.{Unwraps};

use crate::key_bytes::KeyBytes;
use crate::master::MasterKey;
use crypto_hooks::Block256;
use fle_aead::{DataKey, OpenFault, open_into, seal_into};
use std::fmt;

/// How many bytes a data key has.
const KEY: usize = 96;

/// How many bytes a sealed data key has: an IV, seven blocks and a tag.
const MATERIAL: usize = 160;

/// Why material isn't opened. Its `Debug` has no tag, since whoever reads the right one can forge a vault's entry.
#[derive(Clone, Copy, PartialEq, Eq)]
pub enum UnwrapFault {
    /// It isn't 160 bytes; or tag and padding are right, and what is sealed isn't 96 bytes.
    Length,
    /// The last 32 bytes aren't the tag of the rest.
    Tag {
        /// What the tag would have to be.
        computed: [u8; 32],
        /// What stands there.
        found: [u8; 32],
    },
    /// The tag is right and the padding isn't.
    Padding,
}

impl fmt::Debug for UnwrapFault {
    fn fmt<W: fmt::Write>(&self, f: &mut fmt::Formatter<W>) -> fmt::Result {
        f.write_str(match self {
            UnwrapFault::Length => "Length",
            UnwrapFault::Tag { .. } => "Tag",
            UnwrapFault::Padding => "Padding",
        })
    }
}

/// Seals a data key under a master key and this IV, without associated data.
pub fn wrap_key<B: Block256>(
    hooks: &B,
    master: &MasterKey,
    iv: [u8; 16],
    key: &DataKey,
) -> [u8; 160]
    requires hooks { B.answers hooks.now }
    ensures sealed { IsSealed master.now [] iv key.now result }
{
    seal_key(hooks, master, iv, key.bytes())
}

/// Seals the bytes of a data key under a master key and this IV, without associated data: what `wrap_key` makes of the
/// key of these bytes.
pub fn wrap_bytes<B: Block256>(
    hooks: &B,
    master: &MasterKey,
    iv: [u8; 16],
    key: &KeyBytes,
) -> [u8; 160]
    requires hooks { B.answers hooks.now }
    ensures sealed { IsSealed master.now [] iv key.now result }
{
    seal_key(hooks, master, iv, key.bytes())
}

/// Seals 96 bytes.
fn seal_key<B: Block256>(hooks: &B, master: &MasterKey, iv: [u8; 16], key: &[u8; 96]) -> [u8; 160]
    requires hooks { B.answers hooks.now }
    ensures sealed { IsSealed master.now [] iv key.now result }
{
    let mut material = [0; MATERIAL];
    seal_into(hooks, master.key(), &[], iv, key, &mut material);
    material
}

/// Opens a data key under its master key, as `unwrap_bytes` does, and makes of it what seals and opens values. It
/// allocates nothing.
pub fn unwrap_key<B: Block256>(
    hooks: &B,
    master: &MasterKey,
    material: &[u8],
) -> Result<DataKey, UnwrapFault>
    requires hooks { B.answers hooks.now }
    ensures answer { Unwraps master.now material.now result }
{
    match unwrap_bytes(hooks, master, material) {
        Ok(key) => Ok(key.data_key()),
        Err(fault) => Err(fault),
    }
}

/// Opens the bytes of a data key under its master key: its length is judged, then the tag, then the padding, then the
/// length of the key. It allocates nothing.
pub fn unwrap_bytes<B: Block256>(
    hooks: &B,
    master: &MasterKey,
    material: &[u8],
) -> Result<KeyBytes, UnwrapFault>
    requires hooks { B.answers hooks.now }
    ensures answer { Unwraps master.now material.now result }
{
    if material.len() != MATERIAL {
        return Err(UnwrapFault::Length);
    }
    let mut plain = [0; MATERIAL];
    match open_into(hooks, master.key(), &[], material, &mut plain) {
        Ok(n) => key_by(n, &plain),
        Err(fault) => Err(fault_of(fault)),
    }
}

/// The key that is the first n bytes, where these are 96.
fn key_by(n: usize, plain: &[u8; 160]) -> Result<KeyBytes, UnwrapFault>
    ensures { IsKeyOf n plain.now result }
{
    if n == KEY {
        Ok(KeyBytes::new(front_of(plain)))
    } else {
        Err(UnwrapFault::Length)
    }
}

/// Why a message isn't opened, told of material.
fn fault_of(fault: OpenFault) -> UnwrapFault
    ensures { result ≡ fault_seen fault }
{
    match fault {
        OpenFault::Short => UnwrapFault::Length,
        OpenFault::Tag { computed, found } => UnwrapFault::Tag { computed, found },
        OpenFault::Padding => UnwrapFault::Padding,
    }
}

/// The first 96 bytes.
fn front_of(plain: &[u8; 160]) -> [u8; 96]
    ensures { result ≡ take 96 plain.now }
{
    let mut key = [0; KEY];
    key.copy_from_slice(&plain[..KEY]);
    key
}
