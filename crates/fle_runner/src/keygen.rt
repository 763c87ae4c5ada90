//! `keygen MASTER NAME*`: a new key document.

ghost use Rattle.std.specs.Prelude.{◌≡◌, ◌≤◌, ◌⊎◌, List, ℕ, [], ◌∷◌, length, map, string_bytes};
ghost use Rattle.data_key.specs.Written.{size_of as names_size};
ghost use Rattle.fle_outside.specs.Blocks.{Block};
ghost use Rattle.fle_outside.specs.Files.{file_of};
ghost use Rattle.fle_outside.specs.Seen.{AsksOnly, Draws, EntropySeen, FolderSeen, SourceSeen};
ghost use Rattle.fle_runner.specs.Keygen.{DrawsEight, IsOfKey, IsOfKeygen, keygen_plan, keygen_task};
ghost use Rattle.fle_stream.specs.Acted.{Acted, AreAny, AreTold, objects};
ghost use Rattle.fle_stream.specs.Codes.{status_of};
ghost use Rattle.fle_stream.specs.Ended.{IsUnread};
ghost use Rattle.fle_stream.specs.Task.{makes, one_document};
ghost use Rattle.local_kms.specs.Made.{key_of_blocks};

use crypto_hooks::Block256;
use data_key::{KeyDoc, Provider};
use fle_files::load_master;
use fle_outside::{Entropy, Folder, Memory, Sink};
use fle_stream::{Cut, End, Why, write_made};
use local_kms::{MasterKey, NewFault, document_of, names_of, new_key};
use std::alloc::Global;

/// The words behind `keygen`, and when they were given.
#[derive(Clone, Copy)]
pub struct KeygenWords<'a> {
    /// The name of the file of the master key.
    pub master: &'a str,
    /// The key's alternate names.
    pub names: &'a [String],
    /// The 64 bits of the milliseconds since 1970.
    pub time: u64,
}

/// Makes a key with these names under the master key of a file, and writes its document, with the time as both its
/// dates. It reads no input, and draws eight blocks before it writes.
pub fn keygen<F: Folder, O: Sink, N: Entropy, B: Block256>(
    alloc: Global,
    words: KeygenWords<'_>,
    files: &mut F,
    out: &mut O,
    entropy: &mut N,
    hooks: &B,
) -> End
    requires hooks { B.answers hooks.now }
    requires few { length words.names.now ≤ 1000 }
    requires small { names_size (map string_bytes words.names.now) ≤ 15999840 }
    ensures run { (input : SourceSeen) → Acted AreTold
        (λ all. keygen_task (map string_bytes words.entry.names.now) words.entry.time
        (file_of all words.entry.master.now)) one_document
        (objects input (F.seen files.old) (O.seen out.old) (N.seen entropy.old))
        (objects input (F.seen files.new) (O.seen out.new) (N.seen entropy.new)) result }
    ensures kind { IsOfKeygen result.why }
    ensures asked { AsksOnly (words.entry.master.now ∷ []) (F.seen files.old) (F.seen files.new) }
    ensures untouched { IsUnread (status_of result.why) → (out.new ≡ out.old) × (entropy.new ≡ entropy.old) }
    ensures eight_assured { 8 ≤ (N.seen entropy.old).assured → result.why ≡ Why.Cut Cut.Entropy → ⊥ }
    ensures none_or_eight { result.why ≡ Why.Cut Cut.Memory
        → (entropy.new ≡ entropy.old) ⊎ DrawsEight (N.seen entropy.old) (N.seen entropy.new) }
{
    match load_master(alloc, files, 1, words.master) {
        Ok(master) => make_key(alloc, &master, words.names, words.time, out, entropy, hooks),
        Err(why) => End::unread(why),
    }
}

/// Makes a key under a master key, and writes its document.
fn make_key<O: Sink, N: Entropy, B: Block256>(
    alloc: Global,
    master: &MasterKey,
    names: &[String],
    time: u64,
    out: &mut O,
    entropy: &mut N,
    hooks: &B,
) -> End
    requires hooks { B.answers hooks.now }
    requires few { length names.now ≤ 1000 }
    requires small { names_size (map string_bytes names.now) ≤ 15999840 }
    ensures run { (input : SourceSeen) (files : FolderSeen) → Acted AreAny
        (λ _. makes (keygen_plan (map string_bytes names.now) time master.now)) one_document
        (objects input files (O.seen out.old) (N.seen entropy.old))
        (objects input files (O.seen out.new) (N.seen entropy.new)) result }
    ensures kind { IsOfKey result.why }
    ensures eight_assured { 8 ≤ (N.seen entropy.old).assured → result.why ≡ Why.Cut Cut.Entropy → ⊥ }
    ensures none_or_eight { result.why ≡ Why.Cut Cut.Memory
        → (entropy.new ≡ entropy.old) ⊎ DrawsEight (N.seen entropy.old) (N.seen entropy.new) }
{
    let Ok(names) = names_of(alloc, names) else {
        return End::unread(Why::Cut(Cut::Memory));
    };
    match new_key(alloc, entropy, hooks, master, names) {
        Ok(key) => write_new(alloc, &key, time, out),
        Err(NewFault::EntropyFailed) => End::unread(Why::Cut(Cut::Entropy)),
        Err(NewFault::Memory) => End::unread(Why::Cut(Cut::Memory)),
    }
}

/// Writes the document of a key that eight blocks made.
fn write_new<O: Sink>(alloc: Global, key: &KeyDoc, time: u64, out: &mut O) -> End
    requires few { length key.now.names ≤ 1000 }
    requires small { names_size key.now.names ≤ 15999840 }
    requires long { (length key.now.id ≡ 16) × (length key.now.material ≡ 160) }
    requires local { key.now.provider ≡ Provider.Local }
    ensures run { (master : List ℕ) (names : List (List ℕ)) (blocks : List Block) (input : SourceSeen)
        (files : FolderSeen) (before after : EntropySeen)
        → length blocks ≡ 8 → key.now ≡ key_of_blocks master names blocks → Draws before after blocks
        → Acted AreAny (λ _. makes (keygen_plan names time master)) one_document
        (objects input files (O.seen out.old) before) (objects input files (O.seen out.new) after) result }
    ensures kind { IsOfKey result.why }
    ensures drawn { result.why ≡ Why.Cut Cut.Entropy → ⊥ }
{
    match document_of(alloc, key, time) {
        Ok(bytes) => write_made(out, &bytes),
        Err(Memory) => End::unread(Why::Cut(Cut::Memory)),
    }
}
