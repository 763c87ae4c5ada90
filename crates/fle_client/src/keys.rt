//! The keys of a client.

ghost use Rattle.std.specs.Prelude.{◌≡◌};
ghost use Rattle.fle_client.specs.Clients.{keys_of};

use fle_engine::Opener;
use key_vault::Vault;

/// The keys of a client, with a master key or without one.
#[derive(Drop)]
pub enum Keys {
    /// Values are sealed and opened under these.
    Mastered(Opener),
    /// Without a master key no value is sealed or opened; what is wanted is told.
    Unmastered(Vault),
}

impl Keys {
    /// The key documents.
    pub fn vault(&self) -> &Vault
        ensures vault { result.now ≡ keys_of self.now }
    {
        match self {
            Keys::Mastered(opener) => &opener.keys,
            Keys::Unmastered(vault) => vault,
        }
    }
}
