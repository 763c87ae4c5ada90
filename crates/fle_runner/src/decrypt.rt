//! `decrypt KEYS MASTER`: each document with its payloads opened.

ghost use Rattle.std.specs.Prelude.{true, ◌≡◌, ◌<◌, ◌≤◌, IfErr, List, ℕ, Some, [], ◌∷◌};
ghost use Rattle.fle_outside.specs.Counts.{Rose};
ghost use Rattle.fle_outside.specs.Files.{Files, file_of};
ghost use Rattle.fle_outside.specs.Seen.{AsksOnly, EntropySeen};
ghost use Rattle.fle_runner.specs.Decrypt.{decrypt_task, with_opening};
ghost use Rattle.fle_files.specs.Setup.{Leads};
ghost use Rattle.fle_stream.specs.Acted.{Acted, AreTold, objects};
ghost use Rattle.fle_stream.specs.Codes.{status_of};
ghost use Rattle.fle_stream.specs.Ended.{IsUnread};
ghost use Rattle.fle_stream.specs.Files.{IsOfFiles};
ghost use Rattle.fle_stream.specs.Task.{one_document};

use crate::judging::Opening;
use crypto_hooks::Block256;
use fle_engine::Opener;
use fle_files::{load_master, load_vault};
use fle_outside::{Folder, Memory, Sink, Source};
use fle_stream::{Cut, End, Finish, Why, judge_without_blocks};
use key_vault::Vault;
use local_kms::MasterKey;
use std::alloc::Global;

/// What the files of the words hold.
#[derive(Drop)]
pub struct OpeningFiles {
    /// The key documents.
    pub keys: Vault,
    /// The master key.
    pub master: MasterKey,
}

/// Opens each document of the input. It draws no block.
#[tactic(auto, using(crate::proofs::Unseals::decrypt_draws))]
pub fn decrypt<S: Source, F: Folder, O: Sink, B: Block256>(
    alloc: Global,
    keys: &str,
    master: &str,
    input: &mut S,
    files: &mut F,
    out: &mut O,
    hooks: &B,
) -> End
    requires hooks { B.answers hooks.now }
    ensures run { (e : EntropySeen) → Acted AreTold (λ all. decrypt_task (file_of all keys.now)
        (file_of all master.now))
        one_document (objects (S.seen input.old) (F.seen files.old) (O.seen out.old) e)
        (objects (S.seen input.new) (F.seen files.new) (O.seen out.new) e) result }
    ensures asked { AsksOnly (keys.now ∷ master.now ∷ []) (F.seen files.old) (F.seen files.new) }
    ensures formed { result.why ≡ Why.Finished Finish.Words → ⊥ }
    ensures untouched { IsUnread (status_of result.why) → (input.new ≡ input.old) × (out.new ≡ out.old) }
    ensures undrawn { result.why ≡ Why.Cut Cut.Entropy → ⊥ }
{
    let OpeningFiles { keys, master } = match load_opening(alloc, files, keys, master) {
        Ok(held) => held,
        Err(why) => return End::unread(why),
    };
    match Opener::new(alloc, keys, master) {
        Ok(opener) => judge_without_blocks(alloc, Opening { opener, hooks }, input, out),
        Err(Memory) => End::unread(Why::Cut(Cut::Memory)),
    }
}

/// Loads the files of the words, in order.
#[tactic(auto, using(fle_files::proofs::Asks::asks_first, fle_files::proofs::Asks::asks_behind))]
fn load_opening<F: Folder>(
    alloc: Global,
    files: &mut F,
    keys: &str,
    master: &str,
) -> Result<OpeningFiles, Why>
    ensures leads { (all : Files) → (F.seen files.old).told ≡ Some all
        → Leads (with_opening (file_of all keys.now) (file_of all master.now)) result }
    ensures kind { IfErr result IsOfFiles }
    ensures asked { AsksOnly (keys.now ∷ master.now ∷ []) (F.seen files.old) (F.seen files.new) }
    ensures cause { IfErr result (λ why. why ≡ Why.Cut Cut.Folder
        → Rose (F.seen files.old).faults (F.seen files.new).faults) }
    ensures sure { (F.seen files.old).assured ≡ true → IfErr result (λ why. why ≡ Why.Cut Cut.Folder → ⊥) }
{
    let keys = match load_vault(alloc, files, 1, keys) {
        Ok(keys) => keys,
        Err(why) => return Err(why),
    };
    match load_master(alloc, files, 2, master) {
        Ok(master) => Ok(OpeningFiles { keys, master }),
        Err(why) => Err(why),
    }
}
