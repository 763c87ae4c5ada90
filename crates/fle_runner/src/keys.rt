//! `keys KEYS`: a line of text for each key of a vault.

ghost use Rattle.std.specs.Prelude.{◌≡◌, ◌++◌, IfOk, OnOk, [], ◌∷◌};
ghost use Rattle.fle_outside.specs.Files.{file_of};
ghost use Rattle.fle_outside.specs.Seen.{AsksOnly, EntropySeen, FolderSeen, SourceSeen};
ghost use Rattle.fle_runner.specs.Keys.{IsOfKeys, IsOfText, key_line, key_lines, keys_task, provider_word};
ghost use Rattle.fle_runner.specs.Verdicts.{plain_plan};
ghost use Rattle.fle_stream.specs.Acted.{Acted, AreAny, AreTold, objects};
ghost use Rattle.fle_stream.specs.Codes.{status_of};
ghost use Rattle.fle_stream.specs.Ended.{IsUnread};
ghost use Rattle.fle_stream.specs.Task.{makes, one_document};

use bson_codec::writing::append;
use data_key::{KeyDoc, Provider};
use fle_files::load_vault;
use fle_outside::{Folder, Memory, Sink};
use fle_stream::{Cut, End, Why, write_made};
use itoa::Buffer;
use std::alloc::Global;
use uuid::Uuid;

/// Tells the keys of a vault, in its order. It reads no input and draws no block.
pub fn keys<F: Folder, O: Sink>(alloc: Global, vault: &str, files: &mut F, out: &mut O) -> End
    ensures run { (input : SourceSeen) (e : EntropySeen) → Acted AreTold (λ all. keys_task (file_of all vault.now))
        one_document (objects input (F.seen files.old) (O.seen out.old) e)
        (objects input (F.seen files.new) (O.seen out.new) e) result }
    ensures kind { IsOfKeys result.why }
    ensures asked { AsksOnly (vault.now ∷ []) (F.seen files.old) (F.seen files.new) }
    ensures untouched { IsUnread (status_of result.why) → out.new ≡ out.old }
{
    match load_vault(alloc, files, 1, vault) {
        Ok(vault) => write_keys(alloc, vault.keys(), out),
        Err(why) => End::unread(why),
    }
}

/// Writes the line of each key.
fn write_keys<O: Sink>(alloc: Global, keys: &[KeyDoc], out: &mut O) -> End
    ensures run { (input : SourceSeen) (files : FolderSeen) (e : EntropySeen) → Acted AreAny
        (λ _. makes (plain_plan (key_lines keys.now))) one_document (objects input files (O.seen out.old) e)
        (objects input files (O.seen out.new) e) result }
    ensures kind { IsOfText result.why }
{
    match lines_of(alloc, keys) {
        Ok(text) => write_made(out, &text),
        Err(Memory) => End::unread(Why::Cut(Cut::Memory)),
    }
}

/// The line of each key, in order.
fn lines_of(alloc: Global, keys: &[KeyDoc]) -> Result<Vec<u8>, Memory>
    ensures lines { IfOk result (λ text. text.items ≡ key_lines keys.now) }
{
    let mut text = Vec::new(alloc);
    for key in keys {
        put_key(&mut text, key)?;
    }
    Ok(text)
}

/// Appends the line of a key: its id, who holds its master key, the number of its names.
fn put_key(text: &mut Vec<u8>, key: &KeyDoc) -> Result<(), Memory>
    ensures put { OnOk result (text.new.items ≡ text.old.items ++ key_line key.now) }
{
    let mut id = [0; 36];
    let mut count = Buffer::new();
    append(
        text,
        Uuid::from_bytes(key.id)
            .hyphenated()
            .encode_lower(&mut id)
            .as_bytes(),
    )?;
    append(text, b" ")?;
    append(text, word_of(key.provider))?;
    append(text, b" ")?;
    append(text, count.format(key.names.len()).as_bytes())?;
    append(text, b"\n")?;
    Ok(())
}

/// The word for who holds a master key.
fn word_of(provider: Provider) -> &'static [u8]
    ensures word { result.now ≡ provider_word provider }
{
    match provider {
        Provider::Local => b"local",
        Provider::Other => b"other",
    }
}
