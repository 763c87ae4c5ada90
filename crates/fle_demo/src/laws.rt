//! What holds of each command of the demo, so that it's sealed whatever the database and the number are. The functions
//! do nothing; their clauses are the laws.

ghost use Rattle.std.specs.Prelude.{◌≡◌, ◌<◌, ◌≤◌, ◌+◌, ◌∷◌, [], ℕ, List, Some, Ok, length};
ghost use Rattle.std.specs.List.{All};
ghost use Rattle.bson_codec.specs.Layout.{IsDoc};
ghost use Rattle.bson_tree.specs.Spelling.{doc_bytes};
ghost use Rattle.data_key.specs.declared.key_doc.KeyDoc.{KeyDoc};
ghost use Rattle.doc_rewrite.specs.Sites.{draws_of};
ghost use Rattle.context_machine.specs.Ready.{values_of};
ghost use Rattle.context_machine.specs.Rings.{ring};
ghost use Rattle.encrypt_schema.specs.Language.Collection.{Collection};
ghost use Rattle.encrypt_schema.specs.Language.Collections.{collection_in, collections};
ghost use Rattle.fle_outside.specs.Blocks.{AreBlocks, Block};
ghost use Rattle.fle_demo.specs.Sums.{alone, demo_key, sums_of};
ghost use Rattle.fle_demo.specs.Commands.{command, info, rules};
ghost use Rattle.fle_demo.specs.States.{IsAccepted, IsKeyed};
ghost use Rattle.fle_demo.specs.Totals.{IsAlone};
ghost use Rattle.key_vault.specs.Lookup.{key_of};
ghost use Rattle.local_kms.specs.Made.{key_of_blocks, six_blocks};

/// The info is a document, and states a collection with the rules of the definition.
pub fn info_is_read()
    ensures spelled { (id : List ℕ) → length id ≡ 16 → IsDoc (info id) }
    ensures short { (id : List ℕ) → length id ≡ 16 → length (doc_bytes (info id)) ≡ 382 }
    ensures rows { (id : List ℕ) (c : Collection) → length id ≡ 16 → collection_in [] (info id) ≡ Ok c
        → c.rows ≡ rules id }
    ensures alone { (id : List ℕ) → length id ≡ 16
        → (infos : List Collection) × (collections (doc_bytes (info id)) ≡ Ok infos) × IsAlone id infos }
{}

/// A command is a document of 96 bytes and the database's name, and no state refuses it.
pub fn commands_are_accepted()
    ensures spelled { (db : List ℕ) (i x : ℕ) → length db ≤ 63 → IsDoc (command db i x) }
    ensures size { (db : List ℕ) (i x : ℕ) → length (doc_bytes (command db i x)) ≡ length db + 96 }
    ensures accepted { (id db : List ℕ) (i x : ℕ) (c : Collection) → length id ≡ 16 → collection_in [] (info id) ≡ Ok c
        → IsAccepted db c (alone (command db i x)) }
{}

/// Sealing a command takes one block, and one key, which is there.
pub fn commands_are_keyed()
    ensures one_block { (id db : List ℕ) (i x : ℕ) (c : Collection) → length id ≡ 16
        → collection_in [] (info id) ≡ Ok c → draws_of (values_of (Some c) (alone (command db i x))) ≡ 1 }
    ensures keyed { (key : KeyDoc) (master plain db : List ℕ) (i x : ℕ) (c : Collection) → length key.id ≡ 16
        → length db ≤ 63 → collection_in [] (info key.id) ≡ Ok c → key_of (key ∷ []) master key.id ≡ Ok plain
        → IsKeyed (ring (key ∷ []) master) c (alone (command db i x)) }
{}

/// Every command comes back: under the key that is made first, each of N commands is sealed to a document that opens to
/// the command, so that the line counts N of them.
pub fn every_command_comes_back()
    ensures equal { (db : List ℕ) (n : ℕ) → length db ≤ 63 → All (λ b. b < 256) db
        → (sums_of (demo_key n) db n).equal ≡ n }
{}

/// The key that eight blocks make opens to six of them.
pub fn made_key_opens()
    ensures opens { (master : List ℕ) (blocks : List Block) (key : KeyDoc) → length blocks ≡ 8 → AreBlocks blocks
        → key ≡ key_of_blocks master [] blocks → length key.material ≡ 160
        → key_of (key ∷ []) master key.id ≡ Ok (six_blocks 1 blocks) }
{}
