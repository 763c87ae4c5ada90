//! The numbers of reasons and of faults of named files, for the diagnostic line.

ghost use Rattle.std.specs.Prelude.{◌≡◌};
ghost use Rattle.fle_files.specs.Numbers.{infos_code, infos_number, master_code, master_number, reason_number};
ghost use Rattle.fle_files.specs.Numbers.{schema_code, vault_code, vault_number};

use encrypt_schema::{InfoKind, Reason, SchemaFault};
use fle_stream::Number;
use key_vault::VaultKind;
use local_kms::MasterFault;

/// The number of a reason.
pub fn number_of_reason(reason: Reason) -> Number
    ensures number { result ≡ reason_number reason }
{
    Number {
        value: reason.code(),
    }
}

/// The number of a fault of a document of collection infos.
pub fn number_of_infos(kind: InfoKind) -> Number
    ensures number { result ≡ infos_number kind }
{
    Number {
        value: code_of_infos(kind),
    }
}

/// The same number as a byte.
fn code_of_infos(kind: InfoKind) -> u8
    ensures code { result ≡ infos_code kind }
{
    match kind {
        InfoKind::Bson => 30,
        InfoKind::Shape => 31,
        InfoKind::Twice => 32,
        InfoKind::Schema(fault) => 40 + code_of_schema(fault),
    }
}

/// The number of a schema's fault among those of schemas, from 1.
fn code_of_schema(fault: SchemaFault) -> u8
    ensures code { result ≡ schema_code fault }
{
    fault as u8
}

/// The number of a fault of a document of a vault.
pub fn number_of_vault(kind: VaultKind) -> Number
    ensures number { result ≡ vault_number kind }
{
    Number {
        value: code_of_vault(kind),
    }
}

/// The same number as a byte.
fn code_of_vault(kind: VaultKind) -> u8
    ensures code { result ≡ vault_code kind }
{
    match kind {
        VaultKind::Bson => 20,
        VaultKind::Id => 21,
        VaultKind::AltNames => 22,
        VaultKind::Material => 23,
        VaultKind::Provider => 24,
        VaultKind::IdTwice => 25,
        VaultKind::NameTwice => 26,
        VaultKind::TooMany => 27,
    }
}

/// The number of a fault of a master key's file.
pub fn number_of_master(fault: MasterFault) -> Number
    ensures number { result ≡ master_number fault }
{
    Number {
        value: code_of_master(fault),
    }
}

/// The same number as a byte.
fn code_of_master(fault: MasterFault) -> u8
    ensures code { result ≡ master_code fault }
{
    match fault {
        MasterFault::Length => 10,
        MasterFault::Base64 => 11,
    }
}
