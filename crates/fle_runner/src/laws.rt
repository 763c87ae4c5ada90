//! Laws over whole runs. They speak of definitions alone, and `main` calls none of them.

ghost use Rattle.std.specs.Prelude.{◌≡◌, ◌<◌, ◌≤◌, ◌^◌, ◌++◌, List, ℕ, [], length, true, Option, Some, Ok, Err};
ghost use Rattle.std.specs.List.{All};
ghost use Rattle.bson_tree.specs.Tree.{Items};
ghost use Rattle.context_machine.specs.Rings.{Finder, by_ids, finder, found_in, ring};
ghost use Rattle.data_key.specs.declared.key_doc.KeyDoc.{KeyDoc};
ghost use Rattle.doc_rewrite.specs.Opened.{HasAll, Keyring};
ghost use Rattle.encrypt_schema.specs.Language.Collection.{Collection};
ghost use Rattle.ext_json.specs.Infos.{json_infos};
ghost use Rattle.fle_outside.specs.Blocks.{Block};
ghost use Rattle.fle_outside.specs.Files.{Files};
ghost use Rattle.fle_outside.specs.Seen.{EntropySeen, Gains, SinkSeen};
ghost use Rattle.fle_runner.specs.Decrypt.{decrypt_verdict};
ghost use Rattle.fle_runner.specs.Encrypt.{encrypt_task, encrypt_verdict};
ghost use Rattle.fle_runner.specs.EncryptWith.{encrypt_with_task};
ghost use Rattle.fle_runner.specs.Headline.{AreByUuid, AreOpenable, AreReadable, AreSealedUnder, OpensAgain, Setup};
ghost use Rattle.fle_runner.specs.Headline.{SealsAllOf, SealsFirst, SealsStream, accepted_in, verdict_of};
ghost use Rattle.fle_runner.specs.HeadlineFiles.{IsEncrypt, IsMark};
ghost use Rattle.fle_runner.specs.HeadlinePairs.{AreRightPairs, IsEncryptWith, commands_in, pairing_of};
ghost use Rattle.fle_files.specs.Infos.{infos_read, is_json};
ghost use Rattle.fle_runner.specs.Mark.{mark_task, mark_verdict};
ghost use Rattle.fle_runner.specs.ReadBack.{ComesTo, read_whole, stream};
ghost use Rattle.fle_files.specs.Limits.{file_limit};
ghost use Rattle.fle_runner.specs.TwoStreams.{EndAlike, HaveEqualSkeletons};
ghost use Rattle.fle_runner.specs.Verbs.{task};
ghost use Rattle.fle_stream.specs.Ended.{Whole};
ghost use Rattle.fle_stream.specs.Outcome.{finished};
ghost use Rattle.fle_stream.specs.Pairs.{HaveOnePlan, answer_limit, docs_size};
ghost use Rattle.fle_stream.specs.Plan.{Verdict, written};
ghost use Rattle.fle_stream.specs.Streams.{document_limit, documents, documents_within};
ghost use Rattle.fle_stream.specs.Task.{each, outcome_of, pairs};
ghost use Rattle.fle_stream.specs.declared.status.Status.{Status};
ghost use Rattle.fle_stream.specs.declared.status.Status.TheVariants as statuses;
ghost use Rattle.key_vault.specs.Loading.{vault};

use fle_files::InfosFault;
use fle_stream::Finish;

/// An empty input is done, whatever verb the words and files ask for that judges documents.
pub fn empty_input_is_done()
    ensures done { (now : ℕ) (words : List (List ℕ)) (all : Files) (v : Items → Verdict) → task now words all ≡ each v
        → outcome_of (task now words all) [] ≡ finished Finish.Done 1 0 }
{}

/// `mark`, `encrypt` and `encrypt-with` over a file in JSON are the same over its documents in BSON.
pub fn json_infos_are_their_bson()
    ensures mark { (db json bson : List ℕ) → length json ≤ file_limit → length bson ≤ file_limit → is_json json ≡ true
        → json_infos json ≡ Ok bson → mark_task db (Some json) ≡ mark_task db (Some bson) }
    ensures encrypt { (db : List ℕ) (vault master : Option (List ℕ)) (json bson : List ℕ) → length json ≤ file_limit
        → length bson ≤ file_limit → is_json json ≡ true → json_infos json ≡ Ok bson
        → encrypt_task db vault (Some json) master ≡ encrypt_task db vault (Some bson) master }
    ensures encrypt_with { (db : List ℕ) (vault master : Option (List ℕ)) (json bson : List ℕ)
        → length json ≤ file_limit → length bson ≤ file_limit → is_json json ≡ true → json_infos json ≡ Ok bson
        → encrypt_with_task db vault (Some json) master ≡ encrypt_with_task db vault (Some bson) master }
{}

/// No file comes to want of memory: that is an answer of reading it alone.
pub fn no_file_wants_memory()
    ensures never { (bytes : List ℕ) → infos_read bytes ≡ Err InfosFault.Memory → ⊥ }
{}

/// A stream whose documents come, one by one, to the bytes of the documents of a list is read to its end, and the list
/// is written.
#[tactic(auto, using(crate::proofs::Backs::reads_back, crate::proofs::Backs::writes_back))]
pub fn streams_are_read_back()
    ensures outcome { (v : Items → Verdict) (cs ds : List Items) → ComesTo v cs ds → length (stream ds) < 2 ^ 40
        → outcome_of (each v) (stream ds) ≡ read_whole cs ds }
    ensures bytes { (v : Items → Verdict) (cs ds : List Items) → ComesTo v cs ds
        → written (read_whole cs ds).outputs [] ≡ stream cs }
{}

/// A run of `encrypt` that nothing cut short sealed every command that it accepted, and wrote nothing else.
pub fn accepted_commands_are_sealed()
    ensures sealed { (x : Setup) (told : List ℕ) (entropy entropy_after : EntropySeen) (out out_after : SinkSeen)
        → AreByUuid x.keys → All (λ b. b < 256) told
        → Whole (outcome_of (each (verdict_of x)) told) entropy entropy_after out out_after
        → SealsStream x told entropy entropy_after out out_after }
{}

/// `decrypt` over sealed commands reads them to their end and writes the commands: where each of these has a spelling,
/// isn't refused by its contents and has no payload outside its protected values, and where the sealed ones are no
/// longer than an input may be. A data key that they were sealed under is had by its id for that.
pub fn sealed_commands_are_read_back()
    ensures outcome { (x : Setup) (cs : List Items) (blocks : List Block) (ds : List Items)
        → OpensAgain x → AreSealedUnder x cs blocks ds → AreReadable x cs ds → length (stream ds) < 2 ^ 40
        → outcome_of (each (decrypt_verdict x.opens)) (stream ds) ≡ read_whole cs ds }
    ensures bytes { (x : Setup) (cs : List Items) (blocks : List Block) (ds : List Items)
        → OpensAgain x → AreSealedUnder x cs blocks ds → AreReadable x cs ds → written (read_whole cs ds).outputs []
        ≡ stream cs }
    // The commands that a run of `encrypt` accepted, and the first of them.
    ensures readable { (x : Setup) (told : List ℕ) (ds : List Items) → All (λ b. b < 256) told
        → AreOpenable x (accepted_in x 0 (documents told)) ds → AreReadable x (accepted_in x 0 (documents told)) ds }
    ensures first_readable { (x : Setup) (told : List ℕ) (whole others ds : List Items) → All (λ b. b < 256) told
        → accepted_in x 0 (documents told) ≡ whole ++ others → AreOpenable x whole ds → AreReadable x whole ds }
    // What a run of `encrypt` wrote that nothing cut short.
    ensures run { (x : Setup) (told : List ℕ) (entropy entropy_after : EntropySeen) (out out_after : SinkSeen)
        → OpensAgain x → All (λ b. b < 256) told → (s : SealsStream x told entropy entropy_after out out_after)
        → AreOpenable x (accepted_in x 0 (documents told)) s.sealed → length (stream s.sealed) < 2 ^ 40
        → outcome_of (each (decrypt_verdict x.opens)) (stream s.sealed)
        ≡ read_whole (accepted_in x 0 (documents told)) s.sealed }
    // Keys looked up by ids alone, and those of a vault.
    ensures by_ids { (keys : Keyring) → HasAll keys (found_in (by_ids keys)) }
    ensures vault { (bytes master : List ℕ) (keys : List KeyDoc) → vault bytes ≡ Ok keys
        → HasAll (ring keys master) (found_in (finder keys master)) }
{}

/// What a run of `encrypt` wrote that ended with another status than 6, as for want of memory or since a draw failed,
/// is the first of its sealed commands, each of them whole, and nothing else; and `decrypt` over it reads it to its end
/// and writes these commands.
pub fn first_commands_are_read_back()
    ensures gains { (x : Setup) (told : List ℕ) (status : Status) (entropy entropy_after : EntropySeen)
        (out out_after : SinkSeen) → (status ≡ statuses.WriteFault → ⊥)
        → (s : SealsFirst x told status entropy entropy_after out out_after)
        → Gains out.told out_after.told (stream s.sealed) }
    ensures run { (x : Setup) (told : List ℕ) (status : Status) (entropy entropy_after : EntropySeen)
        (out out_after : SinkSeen) → OpensAgain x → All (λ b. b < 256) told
        → (s : SealsFirst x told status entropy entropy_after out out_after) → AreOpenable x s.whole s.sealed
        → length (stream s.sealed) < 2 ^ 40
        → outcome_of (each (decrypt_verdict x.opens)) (stream s.sealed) ≡ read_whole s.whole s.sealed }
{}

/// Noninterference: under the same words and files, streams of commands with equal skeletons come to one end: how and
/// where a run of `mark` or of `encrypt` stops, how many bytes it reads, and how many outputs it writes before, of how
/// many bytes and with how many random blocks, tells of protected values their types, their lengths and whether they
/// are binaries of subtype 06, and nothing else.
pub fn two_streams()
    ensures mark { (now : ℕ) (words : List (List ℕ)) (all : Files) (db : List ℕ) (infos : List Collection)
        (told other : List ℕ) → IsMark words all db infos → All (λ b. b < 256) told → All (λ b. b < 256) other
        → HaveEqualSkeletons infos (documents told) (documents other)
        → EndAlike (outcome_of (task now words all) told) (outcome_of (task now words all) other) }
    ensures encrypt { (now : ℕ) (words : List (List ℕ)) (all : Files) (x : Setup) (told other : List ℕ)
        → IsEncrypt words all x → All (λ b. b < 256) told → All (λ b. b < 256) other
        → HaveEqualSkeletons x.infos (documents told) (documents other)
        → EndAlike (outcome_of (task now words all) told) (outcome_of (task now words all) other) }
    // The same of the verdicts alone, whatever files they come from.
    ensures marking { (infos : List Collection) (db told other : List ℕ) → All (λ b. b < 256) told
        → All (λ b. b < 256) other → HaveEqualSkeletons infos (documents told) (documents other)
        → EndAlike (outcome_of (each (mark_verdict infos db)) told) (outcome_of (each (mark_verdict infos db)) other) }
    ensures sealing { (keys : Finder) (infos : List Collection) (db told other : List ℕ) → All (λ b. b < 256) told
        → All (λ b. b < 256) other → HaveEqualSkeletons infos (documents told) (documents other)
        → EndAlike (outcome_of (each (encrypt_verdict keys infos db)) told)
        (outcome_of (each (encrypt_verdict keys infos db)) other) }
{}

/// Words and files that ask for `encrypt` ask that each command of the input be sealed, and a run that nothing cut
/// short sealed every command that it accepted, and wrote nothing else.
pub fn encrypt_seals_the_input()
    ensures task { (now : ℕ) (words : List (List ℕ)) (all : Files) (x : Setup) → IsEncrypt words all x
        → task now words all ≡ each (verdict_of x) }
    ensures sealed { (now : ℕ) (words : List (List ℕ)) (all : Files) (told : List ℕ) (x : Setup)
        (entropy entropy_after : EntropySeen) (out out_after : SinkSeen)
        → IsEncrypt words all x → All (λ b. b < 256) told
        → Whole (outcome_of (task now words all) told) entropy entropy_after out out_after
        → SealsStream x told entropy entropy_after out out_after }
{}

/// Words and files that ask for `encrypt-with` ask that pairs be judged, and a run that nothing cut short sealed every
/// command that it accepted with its reply, and wrote nothing else.
pub fn encrypt_with_seals_the_input()
    ensures task { (now : ℕ) (words : List (List ℕ)) (all : Files) (x : Setup) → IsEncryptWith words all x
        → task now words all ≡ pairs (pairing_of x) }
    ensures sealed { (now : ℕ) (words : List (List ℕ)) (all : Files) (told : List ℕ) (x : Setup)
        (entropy entropy_after : EntropySeen) (out out_after : SinkSeen)
        → IsEncryptWith words all x → All (λ b. b < 256) told
        → Whole (outcome_of (task now words all) told) entropy entropy_after out out_after
        → SealsAllOf x (commands_in x told) entropy entropy_after out out_after }
{}

/// Right replies change nothing: over pairs whose commands aren't refused by themselves and whose replies are right,
/// `encrypt-with` comes to the outputs of `encrypt` over the commands alone, one by one, and to the same end.
pub fn right_replies_change_nothing()
    ensures outputs { (x : Setup) (told other : List ℕ)
        → AreRightPairs x (documents_within document_limit answer_limit told) (documents other)
        → docs_size (documents_within document_limit answer_limit told) < 2 ^ 40 → docs_size (documents other) < 2 ^ 40
        → HaveOnePlan (outcome_of (pairs (pairing_of x)) told).outputs
        (outcome_of (each (verdict_of x)) other).outputs }
    ensures end { (x : Setup) (told other : List ℕ)
        → AreRightPairs x (documents_within document_limit answer_limit told) (documents other)
        → docs_size (documents_within document_limit answer_limit told) < 2 ^ 40 → docs_size (documents other) < 2 ^ 40
        → (outcome_of (pairs (pairing_of x)) told).finish ≡ (outcome_of (each (verdict_of x)) other).finish }
{}

/// The data keys of a vault are had by UUIDs alone, whatever the master key, and by whatever they are looked up.
pub fn keys_of_a_vault_have_uuids()
    ensures uuids { (bytes master : List ℕ) (keys : List KeyDoc) → vault bytes ≡ Ok keys
        → AreByUuid (finder keys master) }
    ensures by_ids { (bytes master : List ℕ) (keys : List KeyDoc) → vault bytes ≡ Ok keys
        → AreByUuid (by_ids (ring keys master)) }
{}
