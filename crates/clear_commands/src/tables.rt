//! Which fields each clear command may have, and what each holds (MongoDB's manual, Database Commands).

ghost use Rattle.std.specs.Prelude.{◌≡◌};
ghost use Rattle.clear_commands.specs.ClearFields.{clear_kind, field_kind, first_kind};

use crate::command::ClearCommand;
use crate::envelope::envelope_kind;
use crate::kind::{ClearDocument, ClearKind};
use encrypt_schema::is_named;

/// What a field of a command that ends a transaction holds.
#[tactic(auto, unfolding(crate::specs::ClearFields::field_kind))]
fn transaction_kind(name: &[u8]) -> ClearKind
    ensures { result ≡ field_kind ClearCommand.Transaction name.now }
{
    if is_named(name, b"recoveryToken") {
        return ClearKind::Anything;
    }
    envelope_kind(name)
}

/// What a field of a `getMore` holds.
#[tactic(auto, unfolding(crate::specs::ClearFields::field_kind))]
fn get_more_kind(name: &[u8]) -> ClearKind
    ensures { result ≡ field_kind ClearCommand.GetMore name.now }
{
    if is_named(name, b"collection") {
        return ClearKind::Word;
    }
    if is_named(name, b"batchSize") {
        return ClearKind::Word;
    }
    if is_named(name, b"term") {
        return ClearKind::Word;
    }
    envelope_kind(name)
}

/// What a field of a `killCursors` holds.
#[tactic(auto, unfolding(crate::specs::ClearFields::field_kind))]
fn kill_cursors_kind(name: &[u8]) -> ClearKind
    ensures { result ≡ field_kind ClearCommand.KillCursors name.now }
{
    if is_named(name, b"cursors") {
        return ClearKind::Flat;
    }
    envelope_kind(name)
}

/// What a field of a `listCollections` holds.
#[tactic(auto, unfolding(crate::specs::ClearFields::field_kind))]
fn list_collections_kind(name: &[u8]) -> ClearKind
    ensures { result ≡ field_kind ClearCommand.ListCollections name.now }
{
    if is_named(name, b"filter") {
        return ClearKind::Anything;
    }
    if is_named(name, b"nameOnly") {
        return ClearKind::Word;
    }
    if is_named(name, b"authorizedCollections") {
        return ClearKind::Word;
    }
    if is_named(name, b"cursor") {
        return ClearKind::Own(ClearDocument::Cursor);
    }
    envelope_kind(name)
}

/// What a field of a `listDatabases` holds.
#[tactic(auto, unfolding(crate::specs::ClearFields::field_kind))]
fn list_databases_kind(name: &[u8]) -> ClearKind
    ensures { result ≡ field_kind ClearCommand.ListDatabases name.now }
{
    if is_named(name, b"filter") {
        return ClearKind::Anything;
    }
    if is_named(name, b"nameOnly") {
        return ClearKind::Word;
    }
    if is_named(name, b"authorizedDatabases") {
        return ClearKind::Word;
    }
    envelope_kind(name)
}

/// What a field of a `listIndexes` holds.
#[tactic(auto, unfolding(crate::specs::ClearFields::field_kind))]
fn list_indexes_kind(name: &[u8]) -> ClearKind
    ensures { result ≡ field_kind ClearCommand.ListIndexes name.now }
{
    if is_named(name, b"cursor") {
        return ClearKind::Own(ClearDocument::Cursor);
    }
    envelope_kind(name)
}

/// What a field of a `dropIndexes` holds.
#[tactic(auto, unfolding(crate::specs::ClearFields::field_kind))]
fn drop_indexes_kind(name: &[u8]) -> ClearKind
    ensures { result ≡ field_kind ClearCommand.DropIndexes name.now }
{
    if is_named(name, b"index") {
        return ClearKind::Hint;
    }
    envelope_kind(name)
}

/// What a field of a `renameCollection` holds.
#[tactic(auto, unfolding(crate::specs::ClearFields::field_kind))]
fn rename_collection_kind(name: &[u8]) -> ClearKind
    ensures { result ≡ field_kind ClearCommand.RenameCollection name.now }
{
    if is_named(name, b"to") {
        return ClearKind::Word;
    }
    if is_named(name, b"dropTarget") {
        return ClearKind::Word;
    }
    envelope_kind(name)
}

/// What a field of a `dbStats` holds.
#[tactic(auto, unfolding(crate::specs::ClearFields::field_kind))]
fn db_stats_kind(name: &[u8]) -> ClearKind
    ensures { result ≡ field_kind ClearCommand.DbStats name.now }
{
    if is_named(name, b"scale") {
        return ClearKind::Word;
    }
    if is_named(name, b"freeStorage") {
        return ClearKind::Word;
    }
    envelope_kind(name)
}

/// What a field of a `collStats` holds.
#[tactic(auto, unfolding(crate::specs::ClearFields::field_kind))]
fn coll_stats_kind(name: &[u8]) -> ClearKind
    ensures { result ≡ field_kind ClearCommand.CollStats name.now }
{
    if is_named(name, b"scale") {
        return ClearKind::Word;
    }
    envelope_kind(name)
}

/// What a field of an `authenticate` holds.
#[tactic(auto, unfolding(crate::specs::ClearFields::field_kind))]
fn authenticate_kind(name: &[u8]) -> ClearKind
    ensures { result ≡ field_kind ClearCommand.Authenticate name.now }
{
    if is_named(name, b"mechanism") {
        return ClearKind::Word;
    }
    if is_named(name, b"user") {
        return ClearKind::Word;
    }
    envelope_kind(name)
}

/// What a field of a `saslContinue` holds.
#[tactic(auto, unfolding(crate::specs::ClearFields::field_kind))]
fn sasl_continue_kind(name: &[u8]) -> ClearKind
    ensures { result ≡ field_kind ClearCommand.SaslContinue name.now }
{
    if is_named(name, b"conversationId") {
        return ClearKind::Word;
    }
    if is_named(name, b"payload") {
        return ClearKind::Word;
    }
    envelope_kind(name)
}

/// What a field of a `saslStart` holds.
#[tactic(auto, unfolding(crate::specs::ClearFields::field_kind))]
fn sasl_start_kind(name: &[u8]) -> ClearKind
    ensures { result ≡ field_kind ClearCommand.SaslStart name.now }
{
    if is_named(name, b"mechanism") {
        return ClearKind::Word;
    }
    if is_named(name, b"payload") {
        return ClearKind::Word;
    }
    if is_named(name, b"autoAuthorize") {
        return ClearKind::Word;
    }
    if is_named(name, b"options") {
        return ClearKind::Own(ClearDocument::SaslOptions);
    }
    envelope_kind(name)
}

/// What a field of a `hello` holds.
#[tactic(auto, unfolding(crate::specs::ClearFields::field_kind))]
fn hello_kind(name: &[u8]) -> ClearKind
    ensures { result ≡ field_kind ClearCommand.Hello name.now }
{
    if is_named(name, b"client") {
        return ClearKind::Anything;
    }
    if is_named(name, b"speculativeAuthenticate") {
        return ClearKind::Anything;
    }
    if is_named(name, b"compression") {
        return ClearKind::Flat;
    }
    if is_named(name, b"topologyVersion") {
        return ClearKind::Own(ClearDocument::Topology);
    }
    if is_named(name, b"saslSupportedMechs") {
        return ClearKind::Word;
    }
    if is_named(name, b"loadBalanced") {
        return ClearKind::Word;
    }
    if is_named(name, b"helloOk") {
        return ClearKind::Word;
    }
    if is_named(name, b"maxAwaitTimeMS") {
        return ClearKind::Word;
    }
    envelope_kind(name)
}

/// What a field of a command that has no more fields than any command holds.
#[tactic(auto, unfolding(crate::specs::ClearFields::field_kind))]
fn plain_kind(name: &[u8]) -> ClearKind
    ensures { result ≡ field_kind ClearCommand.Plain name.now }
{
    envelope_kind(name)
}

/// What a field of a command that lists sessions holds.
#[tactic(auto, unfolding(crate::specs::ClearFields::field_kind))]
fn sessions_kind(name: &[u8]) -> ClearKind
    ensures { result ≡ field_kind ClearCommand.Sessions name.now }
{
    envelope_kind(name)
}

/// What a field of this name holds in a command, its first field apart.
fn field_kind(command: ClearCommand, name: &[u8]) -> ClearKind
    ensures { result ≡ field_kind command name.now }
{
    match command {
        ClearCommand::Plain => plain_kind(name),
        ClearCommand::Sessions => sessions_kind(name),
        ClearCommand::Transaction => transaction_kind(name),
        ClearCommand::GetMore => get_more_kind(name),
        ClearCommand::KillCursors => kill_cursors_kind(name),
        ClearCommand::ListCollections => list_collections_kind(name),
        ClearCommand::ListDatabases => list_databases_kind(name),
        ClearCommand::ListIndexes => list_indexes_kind(name),
        ClearCommand::DropIndexes => drop_indexes_kind(name),
        ClearCommand::RenameCollection => rename_collection_kind(name),
        ClearCommand::DbStats => db_stats_kind(name),
        ClearCommand::CollStats => coll_stats_kind(name),
        ClearCommand::Authenticate => authenticate_kind(name),
        ClearCommand::SaslContinue => sasl_continue_kind(name),
        ClearCommand::SaslStart => sasl_start_kind(name),
        ClearCommand::Hello => hello_kind(name),
    }
}

/// What a command holds in its first field, under its name.
fn first_kind(command: ClearCommand) -> ClearKind
    ensures { result ≡ first_kind command }
{
    match command {
        ClearCommand::Sessions => ClearKind::Flat,
        _ => ClearKind::Word,
    }
}

/// What a field of this name holds in a command that is called `own`.
pub(crate) fn clear_kind(command: ClearCommand, own: &[u8], name: &[u8]) -> ClearKind
    ensures kind { result ≡ clear_kind command own.now name.now }
{
    if is_named(name, own) {
        return first_kind(command);
    }
    field_kind(command, name)
}
