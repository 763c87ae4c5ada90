//! `rewrap OLD NEW KEYS`: the keys of a vault under another master key.

ghost use Rattle.std.specs.Prelude.{true, ◌≡◌, ◌≤◌, length, IfErr, IfOk, Ok, Some, [], ◌∷◌};
ghost use Rattle.fle_files.specs.Limits.{file_limit};
ghost use Rattle.fle_files.specs.Setup.{Leads};
ghost use Rattle.fle_outside.specs.Counts.{Rose};
ghost use Rattle.fle_outside.specs.Files.{Files, file_of};
ghost use Rattle.fle_outside.specs.Seen.{AsksOnly, FolderSeen, SourceSeen};
ghost use Rattle.fle_runner.specs.Rewrap.{IsOfRewrap, IsOfVault, rewrap_held, rewrap_task, rewrap_why, with_rewrap};
ghost use Rattle.fle_runner.specs.Statuses.{IsUndrawn, IsUnwritten};
ghost use Rattle.fle_stream.specs.Acted.{Acted, AreAny, AreTold, objects};
ghost use Rattle.fle_stream.specs.Codes.{status_of};
ghost use Rattle.fle_stream.specs.Ended.{IsUnread};
ghost use Rattle.fle_stream.specs.Files.{IsOfFiles};
ghost use Rattle.fle_stream.specs.Task.{one_document};
ghost use Rattle.key_vault.specs.Loading.{vault as vault_of};

use crypto_hooks::Block256;
use encrypt_schema::Reason;
use fle_files::{KeysFile, load_keys, load_master, number_of_reason};
use fle_outside::{Entropy, Folder, Sink};
use fle_stream::{Cut, End, Finish, Why, write_made};
use local_kms::MasterKey;
use rewrap_keys::{RewrapFault, rewrap_vault};
use std::alloc::Global;

/// What the files of the words hold.
#[derive(Drop)]
pub struct RewrapFiles {
    /// The master key that the keys are under.
    pub from: MasterKey,
    /// The one that they come under.
    pub to: MasterKey,
    /// The key documents.
    pub vault: KeysFile,
}

/// The words behind `rewrap`, and when they were given.
#[derive(Clone, Copy)]
pub struct RewrapWords<'a> {
    /// The name of the file of the old master key.
    pub from: &'a str,
    /// The name of the file of the new one.
    pub to: &'a str,
    /// The name of the file of key documents.
    pub vault: &'a str,
    /// The 64 bits of the milliseconds since 1970.
    pub time: u64,
}

/// Seals each local key of a vault, which opens under the old master key, under the new one, and writes the vault's
/// file so. It reads no input; it draws a block for each local key once all of them have opened, and then writes.
pub fn rewrap<F: Folder, O: Sink, N: Entropy, B: Block256>(
    alloc: Global,
    words: RewrapWords<'_>,
    files: &mut F,
    out: &mut O,
    entropy: &mut N,
    hooks: &B,
) -> End
    requires hooks { B.answers hooks.now }
    ensures run { (input : SourceSeen) → Acted AreTold
        (λ all. rewrap_task words.entry.time (file_of all words.entry.from.now) (file_of all words.entry.to.now)
        (file_of all words.entry.vault.now)) one_document
        (objects input (F.seen files.old) (O.seen out.old) (N.seen entropy.old))
        (objects input (F.seen files.new) (O.seen out.new) (N.seen entropy.new)) result }
    ensures kind { IsOfRewrap result.why }
    ensures asked { AsksOnly (words.entry.from.now ∷ words.entry.to.now ∷ words.entry.vault.now ∷ [])
        (F.seen files.old) (F.seen files.new) }
    ensures untouched { IsUnread (status_of result.why) → (out.new ≡ out.old) × (entropy.new ≡ entropy.old) }
    ensures unwritten { IsUnwritten (status_of result.why) → out.new ≡ out.old }
    ensures undrawn { IsUndrawn (status_of result.why) → entropy.new ≡ entropy.old }
{
    match load_rewrap(alloc, files, words) {
        Ok(held) => write_rewrapped(alloc, &held, words.time, out, entropy, hooks),
        Err(why) => End::unread(why),
    }
}

/// Loads the files of the words, in order.
#[tactic(auto, using(fle_files::proofs::Asks::asks_first, fle_files::proofs::Asks::asks_behind))]
fn load_rewrap<F: Folder>(
    alloc: Global,
    files: &mut F,
    words: RewrapWords<'_>,
) -> Result<RewrapFiles, Why>
    ensures leads { (all : Files) → (F.seen files.old).told ≡ Some all
        → Leads (with_rewrap (file_of all words.entry.from.now) (file_of all words.entry.to.now)
        (file_of all words.entry.vault.now)) result }
    ensures loaded { IfOk result (λ held. vault_of held.vault.bytes ≡ Ok held.vault.keys) }
    ensures small { IfOk result (λ held. length held.vault.bytes ≤ file_limit) }
    ensures kind { IfErr result IsOfFiles }
    ensures asked { AsksOnly (words.entry.from.now ∷ words.entry.to.now ∷ words.entry.vault.now ∷ [])
        (F.seen files.old) (F.seen files.new) }
    ensures cause { IfErr result (λ why. why ≡ Why.Cut Cut.Folder
        → Rose (F.seen files.old).faults (F.seen files.new).faults) }
    ensures sure { (F.seen files.old).assured ≡ true → IfErr result (λ why. why ≡ Why.Cut Cut.Folder → ⊥) }
{
    let from = match load_master(alloc, files, 1, words.from) {
        Ok(from) => from,
        Err(why) => return Err(why),
    };
    let to = match load_master(alloc, files, 2, words.to) {
        Ok(to) => to,
        Err(why) => return Err(why),
    };
    match load_keys(alloc, files, 3, words.vault) {
        Ok(vault) => Ok(RewrapFiles { from, to, vault }),
        Err(why) => Err(why),
    }
}

/// Makes the file of the keys under the new master key, and writes it.
fn write_rewrapped<O: Sink, N: Entropy, B: Block256>(
    alloc: Global,
    held: &RewrapFiles,
    time: u64,
    out: &mut O,
    entropy: &mut N,
    hooks: &B,
) -> End
    requires hooks { B.answers hooks.now }
    requires loaded { vault_of held.now.vault.bytes ≡ Ok held.now.vault.keys }
    requires small { length held.now.vault.bytes ≤ file_limit }
    ensures run { (input : SourceSeen) (files : FolderSeen) → Acted AreAny (λ _. rewrap_held time held.now) one_document
        (objects input files (O.seen out.old) (N.seen entropy.old))
        (objects input files (O.seen out.new) (N.seen entropy.new)) result }
    ensures kind { IsOfVault result.why }
    ensures unwritten { IsUnwritten (status_of result.why) → out.new ≡ out.old }
    ensures undrawn { IsUndrawn (status_of result.why) → entropy.new ≡ entropy.old }
{
    match rewrap_vault(
        alloc,
        held.vault.bytes.as_slice(),
        &held.vault.keys,
        &held.from,
        &held.to,
        time.cast_signed(),
        hooks,
        entropy,
    ) {
        Ok(file) => write_made(out, &file),
        Err(fault) => End::unread(why_fault(fault)),
    }
}

/// Why a run ends whose vault isn't made anew.
fn why_fault(fault: RewrapFault) -> Why
    ensures why { result ≡ rewrap_why fault }
{
    match fault {
        RewrapFault::Damaged { document } => Why::Finished(Finish::Key {
            reason: number_of_reason(Reason::KeyDamaged),
            document,
        }),
        RewrapFault::EntropyFailed => Why::Cut(Cut::Entropy),
        RewrapFault::Memory => Why::Cut(Cut::Memory),
    }
}
