//! The data key of a key that was found.

ghost use Rattle.std.specs.Prelude.{◌≡◌, option_copied};
ghost use Rattle.key_vault.specs.Lookup.{opened_key};

use crypto_hooks::Block256;
use data_key::{KeyDoc, Provider};
use fle_aead::DataKey;
use local_kms::{MasterKey, unwrap_key};

/// Why there is no data key.
#[derive(Clone, Copy, Debug, PartialEq, Eq)]
pub enum Keyless {
    /// The vault has no such key.
    Missing,
    /// A key service holds its master key.
    NotLocal,
    /// Its material doesn't open to 96 bytes under the master key.
    Damaged,
}

/// The data key of a key that was looked up.
pub fn open_key<B: Block256>(
    hooks: &B,
    master: &MasterKey,
    key: Option<&KeyDoc>,
) -> Result<DataKey, Keyless>
    requires hooks { B.answers hooks.now }
    ensures opened { result ≡ opened_key master.now (option_copied key.entry) }
{
    let Some(key) = key else {
        return Err(Keyless::Missing);
    };
    match key.provider {
        Provider::Local => match unwrap_key(hooks, master, key.material.as_slice()) {
            Ok(key) => Ok(key),
            Err(_) => Err(Keyless::Damaged),
        },
        Provider::Other => Err(Keyless::NotLocal),
    }
}
