//! The program over any objects of the outside.

ghost use Rattle.std.specs.Prelude.{◌≡◌, map, string_bytes};
ghost use Rattle.std.specs.Int.{cast_unsigned, w64};
ghost use Rattle.fle_runner.specs.Promises.{Keeps};
ghost use Rattle.fle_runner.specs.Statuses.{EndsByVerb};
ghost use Rattle.fle_stream.specs.Ended.{IsUnread, world};
ghost use Rattle.fle_words.specs.Words.{form_of};

use crate::act::{Request, act};
use crypto_hooks::Block256;
use fle_outside::{Entropy, Folder, Sink, Source};
use fle_stream::{Status, report};
use std::alloc::Global;

/// Runs the program for the words after its name: reads `input` and the files that the words name,
/// writes to `out`, and tells on `diag`, in one line, why it ended with another status than 0. The
/// verbs that write keys take the time, in milliseconds from 1970, random blocks and a block cipher.
pub fn fle<S: Source, F: Folder, O: Sink, G: Sink, N: Entropy, B: Block256>(
    alloc: Global,
    words: &[String],
    now_ms: i64,
    input: &mut S,
    files: &mut F,
    out: &mut O,
    diag: &mut G,
    entropy: &mut N,
    hooks: &B,
) -> Status
    requires hooks { B.answers hooks.now }
    // What the run keeps, as far as contracts see its objects: `Keeps` has each promise by its name.
    ensures keeps { Keeps (cast_unsigned w64 now_ms) (map string_bytes words.now)
        (world (S.seen input.old) (F.seen files.old) (O.seen out.old) (G.seen diag.old) (N.seen entropy.old))
        (world (S.seen input.new) (F.seen files.new) (O.seen out.new) (G.seen diag.new) (N.seen entropy.new)) result }
    // Words without a form: no file is read.
    ensures unread { result ≡ Status.Words → files.new ≡ files.old }
    // With 2 and 4 no call is made on the input, the output or the source of blocks.
    ensures untouched { IsUnread result → (input.new ≡ input.old) × (out.new ≡ out.old) × (entropy.new ≡ entropy.old) }
    // What each verb may end with, and what it then did with the input, the files and the blocks.
    ensures verb { EndsByVerb (form_of (map string_bytes words.now)) result S.seen input.old input.new F.seen
        files.old files.new out.old out.new N.seen entropy.old entropy.new }
{
    let request = Request {
        words,
        time: now_ms.cast_unsigned(),
    };
    let end = act(alloc, request, input, files, out, entropy, hooks);
    report(diag, &end)
}
