//! Keys as schemas state them: ids, and JSON pointers (RFC 6901) to the fields that name them.

ghost use Rattle.std.specs.Prelude.{◌≡◌, ◌<◌, ◌∷◌, [], Some, true, length, is_some, option_map, IfOk, IfSome};
ghost use Rattle.std.specs.Prelude.{MatchOption};
ghost use Rattle.encrypt_schema.specs.declared.schema.policy.KeyRef.TheVariants.{Pointer};
ghost use Rattle.encrypt_schema.specs.Language.Pointers.{pointer_of, token_name, token_names, tokens, unescaped};
ghost use Rattle.encrypt_schema.specs.Views.Stated.{is_spelled, key_stated, pointer_names};

use crate::schema::policy::KeyRef;
use crate::schema::separated::first_part;
use crate::schema::shared_names::SharedNames;
use bson_tree::{Bytes, Names};
use fle_outside::Memory;
use std::alloc::Global;

/// A key as a schema states it.
#[derive(Clone, Copy)]
pub(crate) enum StatedKey<'a> {
    /// The key with this id, a UUID.
    Id([u8; 16]),
    /// The key that the field names to which the pointer in this text leads.
    Pointer(&'a [u8]),
}

impl<'a> StatedKey<'a> {
    /// The key that a text states, if it is a pointer.
    pub(crate) fn pointer(text: &'a [u8]) -> Option<StatedKey<'a>>
        ensures pointer { option_map key_stated result ≡ option_map Pointer (pointer_of text.now) }
    {
        if is_pointer(text) {
            Some(StatedKey::Pointer(text))
        } else {
            None
        }
    }

    /// The same with the pointer's names on their own.
    pub(crate) fn key(self, alloc: Global) -> Result<KeyRef, Memory>
        ensures same { IfOk result (λ key. key ≡ key_stated self.entry) }
    {
        match self {
            StatedKey::Id(id) => Ok(KeyRef::Id(id)),
            StatedKey::Pointer(text) => {
                let names = pointer_names(alloc, text)?;
                Ok(KeyRef::Pointer(SharedNames::new(alloc, names)?))
            }
        }
    }
}

/// Whether a text is a pointer. It allocates nothing.
#[tactic(auto, unfolding(crate::specs::Language::Pointers::pointer_of))]
fn is_pointer(text: &[u8]) -> bool
    ensures pointer { result ≡ is_some (pointer_of text.now) }
{
    match text {
        [] => false,
        [first, rest @ ..] => *first == b'/' && are_tokens(rest),
    }
}

/// Whether each token of a text spells a name.
fn are_tokens(text: &[u8]) -> bool
    ensures spelled { result ≡ is_spelled text.now }
{
    let mut left = Some(text);
    while let Some(bytes) = left {
        let (token, rest) = first_token(bytes);
        if !is_token(token) {
            return false;
        }
        left = rest;
    }
    true
}

/// The bytes up to the first slash, and those behind it where there is one.
#[tactic(auto, unfolding(crate::specs::Language::Pointers::tokens))]
fn first_token(bytes: &[u8]) -> (&[u8], Option<&[u8]>)
    ensures parts { MatchOption result.1 (tokens bytes.now ≡ result.0.now ∷ [])
        (λ rest. tokens bytes.now ≡ result.0.now ∷ tokens rest.now) }
    ensures less { IfSome result.1 (λ rest. length rest.now < length bytes.now) }
{
    first_part(bytes, b'/')
}

/// Whether a token spells a name.
fn is_token(token: &[u8]) -> bool
    ensures spelled { result ≡ is_some (token_name token.now) }
{
    match token {
        [] => false,
        [_, ..] => is_escaped(token),
    }
}

/// Whether behind each tilde stands 0 or 1.
fn is_escaped(token: &[u8]) -> bool
    ensures spelled { result ≡ is_some (unescaped token.now) }
{
    let mut tilde = false;
    for byte in token {
        if tilde {
            if *byte != b'0' && *byte != b'1' {
                return false;
            }
            tilde = false;
        } else if *byte == b'~' {
            tilde = true;
        }
    }
    !tilde
}

/// The names of a pointer.
#[tactic(auto, unfolding(crate::specs::Language::Pointers::pointer_of))]
fn pointer_names(alloc: Global, text: &[u8]) -> Result<Names, Memory>
    ensures names { IfOk result (λ names. names ≡ pointer_names text.now) }
{
    if !is_pointer(text) {
        return Ok(Names::new(alloc));
    }
    match text {
        [] => Ok(Names::new(alloc)),
        [_, rest @ ..] => token_names(alloc, rest),
    }
}

/// The names that the tokens of a text spell.
fn token_names(alloc: Global, text: &[u8]) -> Result<Names, Memory>
    requires spelled { is_spelled text.now ≡ true }
    ensures names { IfOk result (λ names. token_names (tokens text.now) ≡ Some names) }
{
    let mut names = Names::new(alloc);
    let mut left = Some(text);
    while let Some(bytes) = left {
        let (token, rest) = first_token(bytes);
        let name = unescape(alloc, token)?;
        match names.push(Bytes::from_vec(name)) {
            Ok(()) => {}
            Err(_) => return Err(Memory),
        }
        left = rest;
    }
    Ok(names)
}

/// The name that a token spells.
fn unescape(alloc: Global, token: &[u8]) -> Result<Vec<u8>, Memory>
    requires spelled { is_some (unescaped token.now) ≡ true }
    ensures name { IfOk result (λ name. unescaped token.now ≡ Some name.items) }
{
    let mut name = Vec::new(alloc);
    let mut tilde = false;
    for byte in token {
        if tilde {
            let spelled = if *byte == b'0' { b'~' } else { b'/' };
            if name.push(spelled).is_err() {
                return Err(Memory);
            }
            tilde = false;
        } else if *byte == b'~' {
            tilde = true;
        } else if name.push(*byte).is_err() {
            return Err(Memory);
        }
    }
    Ok(name)
}
