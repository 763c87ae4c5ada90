//! What the words ask for, done.

ghost use Rattle.std.specs.Prelude.{◌≡◌, map, string_bytes};
ghost use Rattle.fle_runner.specs.Promises.{DoesAsked};
ghost use Rattle.fle_runner.specs.Statuses.{EndsByVerb};
ghost use Rattle.fle_stream.specs.Acted.{objects};
ghost use Rattle.fle_stream.specs.Codes.{status_of};
ghost use Rattle.fle_stream.specs.Ended.{IsUnread};
ghost use Rattle.fle_words.specs.Words.{form_of};

use crate::decrypt::decrypt;
use crate::demo::demo;
use crate::encrypt::{EncryptWords, encrypt};
use crate::encrypt_with::encrypt_with;
use crate::keygen::{KeygenWords, keygen};
use crate::keys::keys;
use crate::mark::mark;
use crate::rewrap::{RewrapWords, rewrap};
use crate::show::show;
use crypto_hooks::Block256;
use fle_outside::{Entropy, Folder, Sink, Source};
use fle_stream::{End, Finish, Why};
use fle_words::{Asked, read_words};
use std::alloc::Global;

/// What is asked of a run, and when.
#[derive(Clone, Copy)]
pub struct Request<'a> {
    /// The words after the program's name.
    pub words: &'a [String],
    /// The 64 bits of the milliseconds since 1970.
    pub time: u64,
}

/// Does what the words ask for.
pub fn act<S: Source, F: Folder, O: Sink, N: Entropy, B: Block256>(
    alloc: Global,
    request: Request<'_>,
    input: &mut S,
    files: &mut F,
    out: &mut O,
    entropy: &mut N,
    hooks: &B,
) -> End
    requires hooks { B.answers hooks.now }
    ensures does { DoesAsked request.entry.time (map string_bytes request.entry.words.now)
        (objects (S.seen input.old) (F.seen files.old) (O.seen out.old) (N.seen entropy.old))
        (objects (S.seen input.new) (F.seen files.new) (O.seen out.new) (N.seen entropy.new)) result }
    ensures unread { result.why ≡ Why.Finished Finish.Words → files.new ≡ files.old }
    ensures untouched { IsUnread (status_of result.why)
        → (input.new ≡ input.old) × (out.new ≡ out.old) × (entropy.new ≡ entropy.old) }
    // What each verb may end with, and what it then did with the input, the files and the blocks.
    ensures verb { EndsByVerb (form_of (map string_bytes request.entry.words.now))
        (status_of result.why) S.seen input.old
        input.new F.seen files.old files.new out.old out.new N.seen entropy.old entropy.new }
{
    match read_words(request.words) {
        Asked::Nothing => End::unread(Why::Finished(Finish::Words)),
        Asked::Mark { db, schemas } => mark(alloc, db, schemas, input, files, out),
        Asked::Show => show(alloc, input, out),
        Asked::Keys { vault } => keys(alloc, vault, files, out),
        Asked::Keygen { master, names } => {
            let words = KeygenWords {
                master,
                names,
                time: request.time,
            };
            keygen(alloc, words, files, out, entropy, hooks)
        }
        Asked::Encrypt {
            db,
            keys,
            schemas,
            master,
        } => {
            let words = EncryptWords {
                db,
                keys,
                schemas,
                master,
            };
            encrypt(alloc, words, input, files, out, entropy, hooks)
        }
        Asked::EncryptWith {
            db,
            keys,
            schemas,
            master,
        } => {
            let words = EncryptWords {
                db,
                keys,
                schemas,
                master,
            };
            encrypt_with(alloc, words, input, files, out, entropy, hooks)
        }
        Asked::Decrypt { keys, master } => decrypt(alloc, keys, master, input, files, out, hooks),
        Asked::Demo { db, n } => demo(alloc, db, n, out, hooks),
        Asked::Rewrap { from, to, vault } => {
            let words = RewrapWords {
                from,
                to,
                vault,
                time: request.time,
            };
            rewrap(alloc, words, files, out, entropy, hooks)
        }
    }
}
