//! `encrypt-with DB KEYS SCHEMAS MASTER`: each command with its protected values sealed, once the marking reply behind
//! it was found right.

ghost use Rattle.std.specs.Prelude.{true, ◌≡◌, [], ◌∷◌};
ghost use Rattle.fle_outside.specs.Files.{file_of};
ghost use Rattle.fle_outside.specs.Seen.{AsksOnly};
ghost use Rattle.fle_runner.specs.EncryptWith.{encrypt_with_task};
ghost use Rattle.fle_stream.specs.Acted.{Acted, AreTold, objects};
ghost use Rattle.fle_stream.specs.Codes.{status_of};
ghost use Rattle.fle_stream.specs.Ended.{IsUnread};
ghost use Rattle.fle_stream.specs.Task.{two_documents};

use crate::encrypt::{EncryptWords, SealingFiles, load_sealing};
use crate::judging::Answering;
use crypto_hooks::Block256;
use fle_engine::Engine;
use fle_outside::{Entropy, Folder, Memory, Sink, Source};
use fle_stream::{Cut, End, Finish, Why, judge_pairs};
use std::alloc::Global;

/// Seals each command of the input behind which the right reply stands.
pub fn encrypt_with<S: Source, F: Folder, O: Sink, N: Entropy, B: Block256>(
    alloc: Global,
    words: EncryptWords<'_>,
    input: &mut S,
    files: &mut F,
    out: &mut O,
    entropy: &mut N,
    hooks: &B,
) -> End
    requires hooks { B.answers hooks.now }
    ensures run { Acted AreTold (λ all. encrypt_with_task words.entry.db.now (file_of all words.entry.keys.now)
        (file_of all words.entry.schemas.now) (file_of all words.entry.master.now)) two_documents
        (objects (S.seen input.old) (F.seen files.old) (O.seen out.old) (N.seen entropy.old))
        (objects (S.seen input.new) (F.seen files.new) (O.seen out.new) (N.seen entropy.new)) result }
    ensures asked { AsksOnly (words.entry.keys.now ∷ words.entry.schemas.now ∷ words.entry.master.now ∷ [])
        (F.seen files.old) (F.seen files.new) }
    ensures formed { result.why ≡ Why.Finished Finish.Words → ⊥ }
    ensures untouched { IsUnread (status_of result.why)
        → (input.new ≡ input.old) × (out.new ≡ out.old) × (entropy.new ≡ entropy.old) }
{
    let SealingFiles {
        keys,
        infos,
        master,
    } = match load_sealing(alloc, files, words.keys, words.schemas, words.master) {
        Ok(held) => held,
        Err(why) => return End::unread(why),
    };
    match Engine::of(alloc, words.db.as_bytes(), keys, infos, master) {
        Ok(engine) => judge_pairs(alloc, Answering { engine, hooks }, input, out, entropy),
        Err(Memory) => End::unread(Why::Cut(Cut::Memory)),
    }
}
