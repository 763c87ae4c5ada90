//! What a schema states of rules, gathered in one walk over its keywords.

ghost use Rattle.std.specs.Prelude.{◌≡◌, [], codes, option_and_then, option_map, IfOk, Some, None, true, false};
ghost use Rattle.std.specs.Prelude.{if◌then◌else◌};
ghost use Rattle.encrypt_schema.specs.Language.Names.{named};
ghost use Rattle.encrypt_schema.specs.Language.Rules.{are_keywords, setting_of, stated, states};
ghost use Rattle.encrypt_schema.specs.Language.Schemas.{Gives};
ghost use Rattle.encrypt_schema.specs.Views.Gathered.{found_seen, gathered_of, giving, settings_by};
ghost use Rattle.encrypt_schema.specs.Views.Gathered.{settings_seen, with_keyword};

use crate::schema::faults::SchemaFault;
use crate::schema::keyword::{Form, keyword_of};
use crate::schema::names::is_named;
use crate::schema::settings::{Settings, settings_by};
use crate::schema::shape::is_fitting;
use bson_codec::{RawDoc, RawItem};
use fle_outside::Memory;
use std::alloc::Global;
use std::marker::Model;

/// How many keywords there are.
const KEYWORDS: usize = 31;

/// The settings of the two keywords that have some.
#[derive(Drop)]
pub(crate) struct Found<'a> {
    /// Those of `encrypt`.
    encrypt: Option<Settings<'a>>,
    /// Those of `encryptMetadata`.
    metadata: Option<Settings<'a>>,
}

impl<'a> Found<'a> {
    /// Takes one keyword more, where its value has this form.
    fn take(&mut self, alloc: Global, form: Form, item: &RawItem<'a>) -> Result<bool, Memory>
        ensures taken { IfOk result (λ b. (if b then Some (found_seen self.new) else None)
            ≡ with_keyword (found_seen self.old) item.now.name form item.now.tree) }
    {
        let name = item.name();
        if is_encrypt(name) {
            Ok(self.take_encrypt(item))
        } else if is_metadata(name) {
            Ok(self.take_metadata(item))
        } else {
            is_fitting(alloc, form, item)
        }
    }

    /// Takes the settings of `encrypt`, where they have their forms.
    fn take_encrypt(&mut self, item: &RawItem<'a>) -> bool
        ensures taken { (if result then Some (found_seen self.new) else None)
            ≡ option_map (λ r. record { encrypt = Some r; metadata = (found_seen self.old).metadata })
            (settings_by true item.now.tree) }
    {
        match settings_by(true, item) {
            None => false,
            Some(settings) => {
                self.encrypt = Some(settings);
                true
            }
        }
    }

    /// Takes the settings of `encryptMetadata`, where they have their forms.
    fn take_metadata(&mut self, item: &RawItem<'a>) -> bool
        ensures taken { (if result then Some (found_seen self.new) else None)
            ≡ option_map (λ r. record { encrypt = (found_seen self.old).encrypt; metadata = Some r })
            (settings_by false item.now.tree) }
    {
        match settings_by(false, item) {
            None => false,
            Some(settings) => {
                self.metadata = Some(settings);
                true
            }
        }
    }
}

/// Whether the keyword is `encrypt`.
fn is_encrypt(name: &[u8]) -> bool
    ensures { result ≡ named name.now (codes "encrypt") }
{
    is_named(name, b"encrypt")
}

/// Whether the keyword is `encryptMetadata`.
fn is_metadata(name: &[u8]) -> bool
    ensures { result ≡ named name.now (codes "encryptMetadata") }
{
    is_named(name, b"encryptMetadata")
}

/// A schema whose keywords were read, seen as its document.
#[derive(Drop)]
pub(crate) struct Stated<'a> {
    document: RawDoc<'a>,
    found: Found<'a>,
}

impl<'a> Model for Stated<'a> {
    ghost use Rattle.std.specs.Prelude.{◌≡◌};
    ghost use Rattle.bson_codec.specs.Borrowed.{At, coded_at};
    ghost use Rattle.encrypt_schema.specs.Views.Gathered.{found_seen, gathered_of};

    ghost Value = { At };

    ghost coded = { coded_at };

    ghost view = { λ s. s.document };

    ghost invariant = { λ s. found_seen s.found ≡ gathered_of s.document.tree };
}

/// A schema each of whose names is a keyword, which stands for the first time and whose value has its form.
pub(crate) fn read_keywords<'a>(
    alloc: Global,
    schema: &RawDoc<'a>,
) -> Result<Stated<'a>, SchemaFault>
    ensures keywords { Gives (λ s. s) result (giving schema.now (are_keywords [] schema.now.tree)) }
{
    let found = found_in(alloc, schema)?;
    Ok(Stated {
        document: schema.again(),
        found,
    })
}

/// The settings of a schema's keywords.
fn found_in<'a>(alloc: Global, schema: &RawDoc<'a>) -> Result<Found<'a>, SchemaFault>
    ensures found { Gives (λ f. found_seen f) result
        (giving (gathered_of schema.now.tree) (are_keywords [] schema.now.tree)) }
{
    let mut seen = [false; KEYWORDS];
    let mut found = Found {
        encrypt: None,
        metadata: None,
    };
    for item in schema.items() {
        let Some((number, form)) = keyword_of(item.name()) else {
            return Err(SchemaFault::Keyword);
        };
        if seen[number] {
            return Err(SchemaFault::Shape);
        }
        if !found.take(alloc, form, &item)? {
            return Err(SchemaFault::Shape);
        }
        seen[number] = true;
    }
    Ok(found)
}

impl<'a> Stated<'a> {
    /// The schema.
    pub(crate) fn document(&self) -> &RawDoc<'a>
        ensures document { result.now ≡ self.now }
    {
        &self.document
    }

    /// Whether it has `encrypt`.
    pub(crate) fn has_encrypt(&self) -> bool
        ensures states { result ≡ states (codes "encrypt") self.now.tree }
    {
        self.found.encrypt.is_some()
    }

    /// Whether it has `encryptMetadata`.
    pub(crate) fn has_metadata(&self) -> bool
        ensures states { result ≡ states (codes "encryptMetadata") self.now.tree }
    {
        self.found.metadata.is_some()
    }

    /// The setting `algorithm` of `encrypt`, or else of `encryptMetadata`.
    pub(crate) fn algorithm(&self) -> Option<&RawItem<'a>>
        ensures setting { option_map (λ i. i.now.tree) result ≡ stated (codes "algorithm") self.now.tree }
    {
        match algorithm_in(&self.found.encrypt) {
            Some(item) => Some(item),
            None => algorithm_in(&self.found.metadata),
        }
    }

    /// The setting `keyId` of `encrypt`, or else of `encryptMetadata`.
    pub(crate) fn key(&self) -> Option<&RawItem<'a>>
        ensures setting { option_map (λ i. i.now.tree) result ≡ stated (codes "keyId") self.now.tree }
    {
        match key_in(&self.found.encrypt) {
            Some(item) => Some(item),
            None => key_in(&self.found.metadata),
        }
    }

    /// The setting `bsonType` of `encrypt`; `encryptMetadata` has none.
    pub(crate) fn types(&self) -> Option<&RawItem<'a>>
        ensures setting { option_map (λ i. i.now.tree) result
            ≡ setting_of (codes "encrypt") (codes "bsonType") self.now.tree }
    {
        types_in(&self.found.encrypt)
    }
}

/// The setting `algorithm` among settings that may not be there.
fn algorithm_in<'s, 'a>(settings: &'s Option<Settings<'a>>) -> Option<&'s RawItem<'a>>
    ensures setting { option_map (λ i. i.now.tree) result
        ≡ option_and_then (λ r. r.algorithm) (option_map settings_seen settings.now) }
{
    match settings {
        Some(settings) => settings.algorithm.as_ref(),
        None => None,
    }
}

/// The setting `keyId` among settings that may not be there.
fn key_in<'s, 'a>(settings: &'s Option<Settings<'a>>) -> Option<&'s RawItem<'a>>
    ensures setting { option_map (λ i. i.now.tree) result
        ≡ option_and_then (λ r. r.key) (option_map settings_seen settings.now) }
{
    match settings {
        Some(settings) => settings.key.as_ref(),
        None => None,
    }
}

/// The setting `bsonType` among settings that may not be there.
fn types_in<'s, 'a>(settings: &'s Option<Settings<'a>>) -> Option<&'s RawItem<'a>>
    ensures setting { option_map (λ i. i.now.tree) result
        ≡ option_and_then (λ r. r.types) (option_map settings_seen settings.now) }
{
    match settings {
        Some(settings) => settings.types.as_ref(),
        None => None,
    }
}
