//! What the program says of itself.

ghost use Rattle.std.specs.Prelude.{◌≡◌};
ghost use Rattle.fle_runner.specs.Text.{WritesText, text_why};

use fle_outside::{Failed, Sink, write_whole};
use fle_stream::{Cut, End, Finish, Status, Why, report};

/// The answer to `--version`.
pub const VERSION: &str = "fle 0.2.0\n";

/// The answer to `--help`.
pub const HELP: &str = "fle: MongoDB client-side field level encryption, the client's part

usage, in the order in which you meet them:
  fle keygen MASTER [NAME ...]         make a data key, and write its document
  fle keys KEYS                        write a line for each data key of KEYS
  fle mark DB SCHEMAS                  read commands; write what is to be sealed
  fle encrypt DB KEYS SCHEMAS MASTER   read commands; write them sealed
  fle encrypt-with DB KEYS SCHEMAS MASTER  the same, with mark's replies
  fle decrypt KEYS MASTER              read documents; write them opened
  fle show                             read documents; write a line for each
  fle rewrap OLD NEW KEYS              write KEYS under another master key
  fle demo DB N                        make N commands, seal and open them
  fle --help | --version

The files MASTER, OLD and NEW hold a master key, KEYS data keys sealed under it,
SCHEMAS collection infos in JSON or BSON. DB is the commands' database, a NAME a
new key's other name. Documents are BSON, one after another, from standard
input; keygen, keys, rewrap and demo read none. What mark writes has values in
clear; show writes Extended JSON, with doubles and decimals by their bits.

Where the status isn't 0, standard error has one line, `fle: S D R P`: the
status, the number of the document or file, the reason, the place. Status 0 is
done, 1 refused, 2 words, 3 malformed input, 4 file at fault, 5 read failed,
6 write failed, 7 no random blocks, 8 no memory, 9 limit passed.
";

/// Writes a text to `out`; where that fails, the status and the line say so.
pub fn tell<O: Sink, G: Sink>(out: &mut O, diag: &mut G, text: &str) -> Status
    ensures text { WritesText (O.seen out.old) (O.seen out.new) (G.seen diag.old) (G.seen diag.new) text.now result }
{
    let wrote = write_whole(out, text.as_bytes());
    report(diag, &End::unread(why_text(wrote)))
}

/// Why a program ends that only writes a text.
fn why_text(wrote: Result<(), Failed>) -> Why
    ensures why { result ≡ text_why wrote }
{
    match wrote {
        Ok(()) => Why::Finished(Finish::Done),
        Err(Failed) => Why::Cut(Cut::Output),
    }
}
