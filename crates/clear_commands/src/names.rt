//! The names of clear commands.

ghost use Rattle.std.specs.Prelude.{◌≡◌};
ghost use Rattle.clear_commands.specs.ClearNames.{clear_command, is_name_of};

use crate::command::ClearCommand;
use encrypt_schema::is_named;

/// Whether this is the name of a command that has no more fields than any command.
#[tactic(auto, unfolding(crate::specs::ClearNames::is_name_of))]
fn is_plain(name: &[u8]) -> bool
    ensures { result ≡ is_name_of ClearCommand.Plain name.now }
{
    if is_named(name, b"ping") {
        return true;
    }
    if is_named(name, b"buildInfo") {
        return true;
    }
    if is_named(name, b"startSession") {
        return true;
    }
    if is_named(name, b"drop") {
        return true;
    }
    if is_named(name, b"dropDatabase") {
        return true;
    }
    if is_named(name, b"isMaster") {
        return true;
    }
    if is_named(name, b"ismaster") {
        return true;
    }
    if is_named(name, b"getnonce") {
        return true;
    }
    if is_named(name, b"logout") {
        return true;
    }
    if is_named(name, b"getCmdLineOpts") {
        return true;
    }
    if is_named(name, b"getLog") {
        return true;
    }
    false
}

/// Whether this is the name of a command whose first field lists sessions or users.
#[tactic(auto, unfolding(crate::specs::ClearNames::is_name_of))]
fn is_of_sessions(name: &[u8]) -> bool
    ensures { result ≡ is_name_of ClearCommand.Sessions name.now }
{
    if is_named(name, b"endSessions") {
        return true;
    }
    if is_named(name, b"refreshSessions") {
        return true;
    }
    if is_named(name, b"killSessions") {
        return true;
    }
    if is_named(name, b"killAllSessions") {
        return true;
    }
    if is_named(name, b"killAllSessionsByPattern") {
        return true;
    }
    false
}

/// Whether this is the name of a command that ends a transaction.
#[tactic(auto, unfolding(crate::specs::ClearNames::is_name_of))]
fn is_of_transaction(name: &[u8]) -> bool
    ensures { result ≡ is_name_of ClearCommand.Transaction name.now }
{
    if is_named(name, b"abortTransaction") {
        return true;
    }
    if is_named(name, b"commitTransaction") {
        return true;
    }
    false
}

/// Whether this is the name of `getMore`.
#[tactic(auto, unfolding(crate::specs::ClearNames::is_name_of))]
fn is_get_more(name: &[u8]) -> bool
    ensures { result ≡ is_name_of ClearCommand.GetMore name.now }
{
    if is_named(name, b"getMore") {
        return true;
    }
    false
}

/// Whether this is the name of `killCursors`.
#[tactic(auto, unfolding(crate::specs::ClearNames::is_name_of))]
fn is_kill_cursors(name: &[u8]) -> bool
    ensures { result ≡ is_name_of ClearCommand.KillCursors name.now }
{
    if is_named(name, b"killCursors") {
        return true;
    }
    false
}

/// Whether this is the name of `listCollections`.
#[tactic(auto, unfolding(crate::specs::ClearNames::is_name_of))]
fn is_list_collections(name: &[u8]) -> bool
    ensures { result ≡ is_name_of ClearCommand.ListCollections name.now }
{
    if is_named(name, b"listCollections") {
        return true;
    }
    false
}

/// Whether this is the name of `listDatabases`.
#[tactic(auto, unfolding(crate::specs::ClearNames::is_name_of))]
fn is_list_databases(name: &[u8]) -> bool
    ensures { result ≡ is_name_of ClearCommand.ListDatabases name.now }
{
    if is_named(name, b"listDatabases") {
        return true;
    }
    false
}

/// Whether this is the name of `listIndexes`.
#[tactic(auto, unfolding(crate::specs::ClearNames::is_name_of))]
fn is_list_indexes(name: &[u8]) -> bool
    ensures { result ≡ is_name_of ClearCommand.ListIndexes name.now }
{
    if is_named(name, b"listIndexes") {
        return true;
    }
    false
}

/// Whether this is the name of `dropIndexes`.
#[tactic(auto, unfolding(crate::specs::ClearNames::is_name_of))]
fn is_drop_indexes(name: &[u8]) -> bool
    ensures { result ≡ is_name_of ClearCommand.DropIndexes name.now }
{
    if is_named(name, b"dropIndexes") {
        return true;
    }
    false
}

/// Whether this is the name of `renameCollection`.
#[tactic(auto, unfolding(crate::specs::ClearNames::is_name_of))]
fn is_rename_collection(name: &[u8]) -> bool
    ensures { result ≡ is_name_of ClearCommand.RenameCollection name.now }
{
    if is_named(name, b"renameCollection") {
        return true;
    }
    false
}

/// Whether this is the name of `dbStats`.
#[tactic(auto, unfolding(crate::specs::ClearNames::is_name_of))]
fn is_db_stats(name: &[u8]) -> bool
    ensures { result ≡ is_name_of ClearCommand.DbStats name.now }
{
    if is_named(name, b"dbStats") {
        return true;
    }
    false
}

/// Whether this is the name of `collStats`.
#[tactic(auto, unfolding(crate::specs::ClearNames::is_name_of))]
fn is_coll_stats(name: &[u8]) -> bool
    ensures { result ≡ is_name_of ClearCommand.CollStats name.now }
{
    if is_named(name, b"collStats") {
        return true;
    }
    false
}

/// Whether this is the name of `authenticate`.
#[tactic(auto, unfolding(crate::specs::ClearNames::is_name_of))]
fn is_authenticate(name: &[u8]) -> bool
    ensures { result ≡ is_name_of ClearCommand.Authenticate name.now }
{
    if is_named(name, b"authenticate") {
        return true;
    }
    false
}

/// Whether this is the name of `saslContinue`.
#[tactic(auto, unfolding(crate::specs::ClearNames::is_name_of))]
fn is_sasl_continue(name: &[u8]) -> bool
    ensures { result ≡ is_name_of ClearCommand.SaslContinue name.now }
{
    if is_named(name, b"saslContinue") {
        return true;
    }
    false
}

/// Whether this is the name of `saslStart`.
#[tactic(auto, unfolding(crate::specs::ClearNames::is_name_of))]
fn is_sasl_start(name: &[u8]) -> bool
    ensures { result ≡ is_name_of ClearCommand.SaslStart name.now }
{
    if is_named(name, b"saslStart") {
        return true;
    }
    false
}

/// Whether this is the name of `hello`.
#[tactic(auto, unfolding(crate::specs::ClearNames::is_name_of))]
fn is_hello(name: &[u8]) -> bool
    ensures { result ≡ is_name_of ClearCommand.Hello name.now }
{
    if is_named(name, b"hello") {
        return true;
    }
    false
}

/// The clear command of this name.
#[tactic(auto, unfolding(crate::specs::ClearNames::clear_command))]
pub(crate) fn clear_command(name: &[u8]) -> Option<ClearCommand>
    ensures { result ≡ clear_command name.now }
{
    if is_plain(name) {
        return Some(ClearCommand::Plain);
    }
    if is_of_sessions(name) {
        return Some(ClearCommand::Sessions);
    }
    if is_of_transaction(name) {
        return Some(ClearCommand::Transaction);
    }
    if is_get_more(name) {
        return Some(ClearCommand::GetMore);
    }
    if is_kill_cursors(name) {
        return Some(ClearCommand::KillCursors);
    }
    if is_list_collections(name) {
        return Some(ClearCommand::ListCollections);
    }
    if is_list_databases(name) {
        return Some(ClearCommand::ListDatabases);
    }
    if is_list_indexes(name) {
        return Some(ClearCommand::ListIndexes);
    }
    if is_drop_indexes(name) {
        return Some(ClearCommand::DropIndexes);
    }
    if is_rename_collection(name) {
        return Some(ClearCommand::RenameCollection);
    }
    if is_db_stats(name) {
        return Some(ClearCommand::DbStats);
    }
    if is_coll_stats(name) {
        return Some(ClearCommand::CollStats);
    }
    if is_authenticate(name) {
        return Some(ClearCommand::Authenticate);
    }
    if is_sasl_continue(name) {
        return Some(ClearCommand::SaslContinue);
    }
    if is_sasl_start(name) {
        return Some(ClearCommand::SaslStart);
    }
    if is_hello(name) {
        return Some(ClearCommand::Hello);
    }
    None
}
