//! What holds of vaults under a new master key, as contracts of functions that do nothing.

ghost use Rattle.std.specs.Prelude.{◌≡◌, ℕ, List, length, Ok};
ghost use Rattle.data_key.specs.declared.key_doc.KeyDoc.{KeyDoc};
ghost use Rattle.fle_outside.specs.Blocks.{Block};
ghost use Rattle.key_vault.specs.Loading.{vault};
ghost use Rattle.rewrap_keys.specs.Reloaded.{CanRewrap, new_keys, Reloads};
ghost use Rattle.rewrap_keys.specs.Rewrapped.{Change, rewrapped_file};

/// A vault of which no key is damaged is, under a new master key, a file of the same length that loads as the same keys
/// with new material, and each opens under the new master key to what it opened to under the old one.
pub fn rewrapped_vaults_load()
    ensures loads { (c : Change) (bytes : List ℕ) (keys : List KeyDoc) (blocks : List Block)
        → CanRewrap c bytes keys blocks → vault (rewrapped_file c bytes blocks) ≡ Ok (new_keys c keys blocks) }
    ensures size { (c : Change) (bytes : List ℕ) (keys : List KeyDoc) (blocks : List Block)
        → CanRewrap c bytes keys blocks → length (rewrapped_file c bytes blocks) ≡ length bytes }
    ensures reloads { (c : Change) (bytes : List ℕ) (keys : List KeyDoc) (blocks : List Block)
        → CanRewrap c bytes keys blocks → Reloads c.from c.to keys (rewrapped_file c bytes blocks) }
{}
