//! The law that opening undoes sealing (MongoDB Client Side Encryption), over a vault and its master key.

ghost use Rattle.std.specs.Prelude.{◌≡◌, ℕ, List, None, Ok};
ghost use Rattle.bson_codec.specs.Borrowed.{At};
ghost use Rattle.bson_codec.specs.Layout.{IsDoc};
ghost use Rattle.data_key.specs.declared.key_doc.KeyDoc.{KeyDoc};
ghost use Rattle.encrypt_schema.specs.Commands.Visits.{content_verdict};
ghost use Rattle.encrypt_schema.specs.Language.Row.{Row};
ghost use Rattle.doc_rewrite.specs.Opened.{opened};
ghost use Rattle.doc_rewrite.specs.PayloadFree.{IsPayloadFreeByPlaces};
ghost use Rattle.doc_rewrite.specs.Plans.{AreById};
ghost use Rattle.doc_rewrite.specs.SealedCommand.{IsSealedCommand};
ghost use Rattle.context_machine.specs.Kept.{HasDistinctIds};
ghost use Rattle.context_machine.specs.Rings.{finder, found_in, ring};

/// A command that was sealed under a vault and a master key opens to the command under them: where no two keys of the
/// vault have one id, the command has a spelling, no place of it has an offence of the content pass, and no payload
/// stands outside its protected values. Of the vault nothing is asked where the keys of all rules are ids.
pub fn opening_undoes_sealing()
    ensures opens { (vault : List KeyDoc) (master : List ℕ) (rows : List Row) (c d : At) → HasDistinctIds vault
        → IsDoc c.tree → content_verdict rows c.start c.tree ≡ None → IsPayloadFreeByPlaces rows c.tree
        → IsSealedCommand (found_in (finder vault master)) rows c.tree d.tree
        → opened (ring vault master) d ≡ Ok c.tree }
    ensures opens_by_ids { (vault : List KeyDoc) (master : List ℕ) (rows : List Row) (c d : At) → AreById rows
        → IsDoc c.tree → content_verdict rows c.start c.tree ≡ None → IsPayloadFreeByPlaces rows c.tree
        → IsSealedCommand (found_in (finder vault master)) rows c.tree d.tree
        → opened (ring vault master) d ≡ Ok c.tree }
{}
