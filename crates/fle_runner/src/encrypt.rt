//! `encrypt DB KEYS SCHEMAS MASTER`: each command with its protected values sealed.

ghost use Rattle.std.specs.Prelude.{true, ◌≡◌, IfErr, Some, [], ◌∷◌};
ghost use Rattle.fle_outside.specs.Counts.{Rose};
ghost use Rattle.fle_outside.specs.Files.{Files, file_of};
ghost use Rattle.fle_outside.specs.Seen.{AsksOnly};
ghost use Rattle.fle_runner.specs.Encrypt.{encrypt_task};
ghost use Rattle.fle_runner.specs.Encrypt.{with_sealing};
ghost use Rattle.fle_files.specs.Setup.{Leads};
ghost use Rattle.fle_stream.specs.Acted.{Acted, AreTold, objects};
ghost use Rattle.fle_stream.specs.Codes.{status_of};
ghost use Rattle.fle_stream.specs.Ended.{IsUnread};
ghost use Rattle.fle_stream.specs.Files.{IsOfFiles};
ghost use Rattle.fle_stream.specs.Task.{one_document};

use crate::judging::Sealing;
use crypto_hooks::Block256;
use encrypt_schema::Infos;
use fle_engine::Engine;
use fle_files::{load_infos, load_master, load_vault};
use fle_outside::{Entropy, Folder, Memory, Sink, Source};
use fle_stream::{Cut, End, Finish, Why, judge_stream};
use key_vault::Vault;
use local_kms::MasterKey;
use std::alloc::Global;

/// What the files of the words hold.
#[derive(Drop)]
pub struct SealingFiles {
    /// The key documents.
    pub keys: Vault,
    /// The collection infos.
    pub infos: Infos,
    /// The master key.
    pub master: MasterKey,
}

/// The words behind `encrypt`.
#[derive(Clone, Copy)]
pub struct EncryptWords<'a> {
    /// The database's name.
    pub db: &'a str,
    /// The name of the file of key documents.
    pub keys: &'a str,
    /// The name of the file of collection infos.
    pub schemas: &'a str,
    /// The name of the file of the master key.
    pub master: &'a str,
}

/// Seals each command of the input.
pub fn encrypt<S: Source, F: Folder, O: Sink, N: Entropy, B: Block256>(
    alloc: Global,
    words: EncryptWords<'_>,
    input: &mut S,
    files: &mut F,
    out: &mut O,
    entropy: &mut N,
    hooks: &B,
) -> End
    requires hooks { B.answers hooks.now }
    ensures run { Acted AreTold (λ all. encrypt_task words.entry.db.now (file_of all words.entry.keys.now)
        (file_of all words.entry.schemas.now) (file_of all words.entry.master.now)) one_document
        (objects (S.seen input.old) (F.seen files.old) (O.seen out.old) (N.seen entropy.old))
        (objects (S.seen input.new) (F.seen files.new) (O.seen out.new) (N.seen entropy.new)) result }
    ensures asked { AsksOnly (words.entry.keys.now ∷ words.entry.schemas.now ∷ words.entry.master.now ∷ [])
        (F.seen files.old) (F.seen files.new) }
    ensures formed { result.why ≡ Why.Finished Finish.Words → ⊥ }
    ensures untouched { IsUnread (status_of result.why)
        → (input.new ≡ input.old) × (out.new ≡ out.old) × (entropy.new ≡ entropy.old) }
{
    let SealingFiles {
        keys,
        infos,
        master,
    } = match load_sealing(alloc, files, words.keys, words.schemas, words.master) {
        Ok(held) => held,
        Err(why) => return End::unread(why),
    };
    match Engine::of(alloc, words.db.as_bytes(), keys, infos, master) {
        Ok(engine) => judge_stream(alloc, Sealing { engine, hooks }, input, out, entropy),
        Err(Memory) => End::unread(Why::Cut(Cut::Memory)),
    }
}

/// Loads the files of the words, in order.
#[tactic(auto, using(fle_files::proofs::Asks::asks_first, fle_files::proofs::Asks::asks_behind))]
pub fn load_sealing<F: Folder>(
    alloc: Global,
    files: &mut F,
    keys: &str,
    schemas: &str,
    master: &str,
) -> Result<SealingFiles, Why>
    ensures leads { (all : Files) → (F.seen files.old).told ≡ Some all
        → Leads (with_sealing (file_of all keys.now) (file_of all schemas.now) (file_of all master.now)) result }
    ensures kind { IfErr result IsOfFiles }
    ensures asked { AsksOnly (keys.now ∷ schemas.now ∷ master.now ∷ []) (F.seen files.old) (F.seen files.new) }
    ensures cause { IfErr result (λ why. why ≡ Why.Cut Cut.Folder
        → Rose (F.seen files.old).faults (F.seen files.new).faults) }
    ensures sure { (F.seen files.old).assured ≡ true → IfErr result (λ why. why ≡ Why.Cut Cut.Folder → ⊥) }
{
    let keys = match load_vault(alloc, files, 1, keys) {
        Ok(keys) => keys,
        Err(why) => return Err(why),
    };
    let infos = match load_infos(alloc, files, 2, schemas) {
        Ok(infos) => infos,
        Err(why) => return Err(why),
    };
    match load_master(alloc, files, 3, master) {
        Ok(master) => Ok(SealingFiles {
            keys,
            infos,
            master,
        }),
        Err(why) => Err(why),
    }
}
