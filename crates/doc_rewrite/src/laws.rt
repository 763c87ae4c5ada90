//! Laws of documents that are sealed. The functions do nothing; their clauses are the laws.

ghost use Rattle.std.specs.Prelude.{◌≡◌, ◌<◌, ◌^◌, ℕ, List, length, None, Ok};
ghost use Rattle.std.specs.List.{All};
ghost use Rattle.bson_codec.specs.Borrowed.{At};
ghost use Rattle.bson_codec.specs.Layout.{IsDoc};
ghost use Rattle.bson_tree.specs.Spelling.{doc_bytes, items_bytes};
ghost use Rattle.bson_tree.specs.Tree.{Items};
ghost use Rattle.encrypt_schema.specs.declared.command.marks.Mark.{Mark};
ghost use Rattle.encrypt_schema.specs.Commands.Visits.{content_verdict, roles};
ghost use Rattle.encrypt_schema.specs.Language.Row.{Row};
ghost use Rattle.fle_outside.specs.Blocks.{AreBlocks, Block};
ghost use Rattle.doc_rewrite.specs.Keys.{GivesLongIds, Lookup};
ghost use Rattle.doc_rewrite.specs.Opened.{HasAll, Keyring, opened};
ghost use Rattle.doc_rewrite.specs.PayloadFree.{IsPayloadFree, IsPayloadFreeByPlaces};
ghost use Rattle.doc_rewrite.specs.Plans.{AreById, AreLong, AreMarksOf};
ghost use Rattle.doc_rewrite.specs.Sealed.{sealed};
ghost use Rattle.doc_rewrite.specs.SealedCommand.{AreNeeded, HasRuleKeys, IsSealedCommand};
ghost use Rattle.doc_rewrite.specs.SealedTrees.{IsSealedByStations};
ghost use Rattle.doc_rewrite.specs.Sealing.{HasKeys};
ghost use Rattle.doc_rewrite.specs.Sites.{sites_of};

/// The marks of a command's protected values are what `plan_seal` asks of marks: where no place of the command has an
/// offence of the content pass, and under rules whose keys are ids of every command.
pub fn roles_stand()
    ensures stand { (rows : List Row) (d : At) → content_verdict rows d.start d.tree ≡ None
        → AreMarksOf rows (roles rows d.start d.tree) d }
    ensures by_ids { (rows : List Row) (d : At) → AreById rows → AreMarksOf rows (roles rows d.start d.tree) d }
{}

/// A sealed command, read by its places, is one read by their stations, and the other way round.
pub fn one_reading()
    ensures stations { (keys : Lookup) (rows : List Row) (c d : Items)
        → IsSealedCommand keys rows c d → IsSealedByStations keys rows c d }
    ensures places { (keys : Lookup) (rows : List Row) (c d : Items)
        → IsSealedByStations keys rows c d → IsSealedCommand keys rows c d }
{}

/// A command with no payload outside its protected values, read by its places, is one read by their stations, and the
/// other way round.
pub fn free_reading()
    ensures stations { (rows : List Row) (c : Items) → IsPayloadFreeByPlaces rows c → IsPayloadFree rows c }
    ensures places { (rows : List Row) (c : Items) → IsPayloadFree rows c → IsPayloadFreeByPlaces rows c }
{}

/// A command of bytes, sealed at its protected values under keys that are there and any blocks, is a sealed command.
pub fn sealed_as_stated()
    ensures sealed { (keys : Lookup) (rows : List Row) (d : At) (blocks : List Block)
        → All (λ b. b < 256) (items_bytes d.tree) → AreBlocks blocks
        → HasRuleKeys keys rows d (roles rows d.start d.tree)
        → IsSealedCommand keys rows d.tree (sealed keys (sites_of rows d (roles rows d.start d.tree)) blocks d) }
{}

/// Sites with keys that are there, under ids of 16 bytes, as those of a plan are: then the marks have the keys of their
/// rules, where the key of each is named. That is so of marks that stand in a document.
pub fn sites_have_rule_keys()
    ensures keyed { (keys : Lookup) (rows : List Row) (d : At) (marks : List Mark) → AreNeeded rows d marks
        → HasKeys keys (sites_of rows d marks) → AreLong (sites_of rows d marks) → GivesLongIds keys
        → HasRuleKeys keys rows d marks }
    ensures needed { (rows : List Row) (d : At) (marks : List Mark) → AreMarksOf rows marks d → AreNeeded rows d marks }
{}

/// A sealed command opens to the command, under any keys that have those that it was sealed under: where the command
/// has a spelling, no place of it has an offence of the content pass, and no payload stands outside its protected
/// values. It may begin at any offset of its bytes, and so may the sealed one.
pub fn opening_undoes_sealing()
    ensures opens { (keys : Lookup) (ring : Keyring) (rows : List Row) (c d : At) → IsDoc c.tree
        → content_verdict rows c.start c.tree ≡ None → IsPayloadFree rows c.tree → HasAll ring keys
        → IsSealedCommand keys rows c.tree d.tree → opened ring d ≡ Ok c.tree }
    ensures stations { (keys : Lookup) (ring : Keyring) (rows : List Row) (c d : At) → IsDoc c.tree
        → content_verdict rows c.start c.tree ≡ None → IsPayloadFree rows c.tree → HasAll ring keys
        → IsSealedByStations keys rows c.tree d.tree → opened ring d ≡ Ok c.tree }
    ensures places { (keys : Lookup) (ring : Keyring) (rows : List Row) (c d : At) → IsDoc c.tree
        → content_verdict rows c.start c.tree ≡ None → IsPayloadFreeByPlaces rows c.tree → HasAll ring keys
        → IsSealedCommand keys rows c.tree d.tree → opened ring d ≡ Ok c.tree }
    ensures sealed { (keys : Lookup) (ring : Keyring) (rows : List Row) (c : At) (blocks : List Block) → IsDoc c.tree
        → content_verdict rows c.start c.tree ≡ None → IsPayloadFree rows c.tree → HasAll ring keys
        → All (λ b. b < 256) (items_bytes c.tree) → AreBlocks blocks
        → HasRuleKeys keys rows c (roles rows c.start c.tree)
        → opened ring (record {
          tree = sealed keys (sites_of rows c (roles rows c.start c.tree)) blocks c;
          start = c.start;
        }) ≡ Ok c.tree }
{}

/// A sealed command has a spelling, of as many levels of nesting as the command, where it has fewer than 2^31 bytes.
pub fn sealing_is_spelled()
    ensures spelled { (keys : Lookup) (rows : List Row) (c d : Items) → IsDoc c → IsSealedCommand keys rows c d
        → length (doc_bytes d) < 2 ^ 31 → IsDoc d }
{}
