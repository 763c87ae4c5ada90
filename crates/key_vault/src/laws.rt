//! What holds of caches and vaults, as contracts of functions that do nothing.

ghost use denote.Param.Send.{IsSend};
ghost use Rattle.key_vault.specs.contracts.cache.KeyCache.{the_row as cache_row};
ghost use Rattle.key_vault.specs.contracts.vault.Vault.{the_row as vault_row};

use crate::cache::KeyCache;
use crate::vault::Vault;
use fle_aead::laws::owned_anywhere;

/// Any thread may own a cache of opened keys, and a vault: both types are `Send`.
pub fn keys_of_any_thread()
    ensures owned { IsSend cache_row × IsSend vault_row }
{
    owned_anywhere::<KeyCache>();
    owned_anywhere::<Vault>();
}
