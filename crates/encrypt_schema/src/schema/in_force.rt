//! What is in force inside a schema: the algorithm and the key.

ghost use Rattle.std.specs.Prelude.{◌≡◌, codes, option_map};
ghost use Rattle.encrypt_schema.specs.Language.Names.{named};
ghost use Rattle.encrypt_schema.specs.Language.Rules.{algorithm_inside, algorithm_named, key_inside};
ghost use Rattle.encrypt_schema.specs.Views.Stated.{key_stated};

use crate::schema::faults::SchemaFault;
use crate::schema::names::is_named;
use crate::schema::pointers::StatedKey;
use crate::schema::policy::Algorithm;
use crate::schema::shape::key_of;
use crate::schema::stated::Stated;
use crate::schema::values::text_of;

/// The algorithm in force inside: the one stated, else the one around. `Algorithm` exactly where another text
/// than one of the two is stated.
#[tactic(auto, unfolding(crate::specs::Language::Rules::algorithm_inside))]
pub(crate) fn algorithm_inside(
    around: Option<Algorithm>,
    schema: &Stated<'_>,
) -> Result<Option<Algorithm>, SchemaFault>
    ensures { result ≡ algorithm_inside around schema.now.tree }
{
    let Some(item) = schema.algorithm() else {
        return Ok(around);
    };
    let Some(text) = text_of(item) else {
        return Err(SchemaFault::Algorithm);
    };
    match algorithm_named(text) {
        Some(algorithm) => Ok(Some(algorithm)),
        None => Err(SchemaFault::Algorithm),
    }
}

/// The algorithm of this name.
#[tactic(auto, unfolding(crate::specs::Language::Rules::algorithm_named))]
fn algorithm_named(text: &[u8]) -> Option<Algorithm>
    ensures { result ≡ algorithm_named text.now }
{
    if is_deterministic(text) {
        Some(Algorithm::Deterministic)
    } else if is_random(text) {
        Some(Algorithm::Random)
    } else {
        None
    }
}

/// Whether the text names the deterministic algorithm.
fn is_deterministic(text: &[u8]) -> bool
    ensures { result ≡ named text.now (codes "AEAD_AES_256_CBC_HMAC_SHA_512-Deterministic") }
{
    is_named(text, b"AEAD_AES_256_CBC_HMAC_SHA_512-Deterministic")
}

/// Whether the text names the random algorithm.
fn is_random(text: &[u8]) -> bool
    ensures { result ≡ named text.now (codes "AEAD_AES_256_CBC_HMAC_SHA_512-Random") }
{
    is_named(text, b"AEAD_AES_256_CBC_HMAC_SHA_512-Random")
}

/// The key in force inside: the one stated, else the one around.
#[tactic(auto, unfolding(crate::specs::Language::Rules::key_inside))]
pub(crate) fn key_inside<'a>(
    around: Option<StatedKey<'a>>,
    schema: &Stated<'a>,
) -> Option<StatedKey<'a>>
    ensures { option_map key_stated result ≡ key_inside (option_map key_stated around.entry) schema.now.tree }
{
    match schema.key() {
        None => around,
        Some(item) => key_of(item),
    }
}
