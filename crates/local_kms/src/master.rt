//! Master keys (MongoDB Client Side Encryption, "local").

ghost use Rattle.std.specs.Prelude.{◌≡◌, ◌==◌, length, take, Ok, Err};
ghost use Rattle.base64.specs.Engines.{standard};
ghost use Rattle.base64.specs.GeneralPurpose.{decode_of};
ghost use Rattle.local_kms.specs.Master.{is_text, key_of_text, master_in};

use base64::engine::general_purpose::STANDARD;
use fle_aead::DataKey;
use std::marker::Model;
use thiserror::Error;

/// How many bytes a master key has.
const KEY: usize = 96;

/// How many characters its base64 text has.
const TEXT: usize = 128;

/// A master key of 96 bytes. It keeps what sealing makes of its parts, so that a data key costs none of it.
#[derive(Drop)]
pub struct MasterKey {
    key: DataKey,
}

impl Model for MasterKey {
    ghost use Rattle.std.specs.Prelude.{ℕ, List};

    ghost Value = { List ℕ };

    ghost view = { λ m. m.key };
}

impl MasterKey {
    /// The key of these bytes.
    pub fn new(bytes: [u8; 96]) -> MasterKey
        ensures key { result ≡ bytes }
    {
        MasterKey {
            key: DataKey::new(bytes),
        }
    }

    /// The 96 bytes of the key.
    pub fn bytes(&self) -> &[u8; 96]
        ensures bytes { result.now ≡ self.now }
    {
        self.key.bytes()
    }

    /// The key that seals data keys.
    pub(crate) fn key(&self) -> &DataKey
        ensures key { result.now ≡ self.now }
    {
        &self.key
    }
}

/// Why a file holds no master key.
#[derive(Clone, Copy, Debug, PartialEq, Eq, Error)]
#[error("master key refused")]
pub enum MasterFault {
    /// It has neither 96 nor 128 bytes, nor 129 of which the last is a line feed.
    Length,
    /// It has 128 characters that aren't the base64 text of 96 bytes.
    Base64,
}

/// The master key in the bytes of a file: 96 bytes, or their base64 text, which a line feed may follow. It allocates
/// nothing.
#[tactic(auto, unfolding(crate::specs::Master::master_in))]
pub fn read_master(bytes: &[u8]) -> Result<MasterKey, MasterFault>
    ensures read { result ≡ master_in bytes.now }
{
    if bytes.len() == KEY {
        return Ok(MasterKey::new(array_of(bytes)));
    }
    if is_text(bytes) {
        let (text, _) = bytes.split_at(TEXT);
        return decoded(text);
    }
    Err(MasterFault::Length)
}

/// Whether the bytes are 128, or 129 of which the last is a line feed.
fn is_text(bytes: &[u8]) -> bool
    ensures { result ≡ is_text bytes.now }
{
    bytes.len() == TEXT || bytes.len() == TEXT + 1 && bytes[TEXT] == b'\n'
}

/// The key whose base64 text this is.
fn decoded(text: &[u8]) -> Result<MasterKey, MasterFault>
    requires { length text.now ≡ 128 }
    ensures { result ≡ key_of_text (decode_of standard text.now) }
{
    let mut bytes = [0; KEY];
    match STANDARD.decode_slice_unchecked(text, &mut bytes) {
        Ok(KEY) => Ok(MasterKey::new(bytes)),
        Ok(_) => Err(MasterFault::Base64),
        Err(_) => Err(MasterFault::Base64),
    }
}

/// The 96 bytes.
fn array_of(bytes: &[u8]) -> [u8; 96]
    requires { length bytes.now ≡ 96 }
    ensures { result ≡ bytes.now }
{
    let mut array = [0; KEY];
    array.copy_from_slice(bytes);
    array
}
