//! The keys that the tests feed.

use crate::machine::decrypting_samples::{OTHER_ID, material, other_material};
use crate::machine::named_samples::{NAME, OLD_NAME};
use crate::machine::sealing_samples::SECOND_ID;
use bson_tree::{Bytes, Names};
use data_key::{KeyDoc, Provider};
use sample_documents::KEY_ID;
use std::alloc::Global;

/// Which key is fed.
#[derive(Clone, Copy)]
pub(crate) enum Fed {
    /// The key of `KEY_ID`.
    Right,
    /// The same, the last byte of its tag another.
    Damaged,
    /// The same, but a key service holds its master key.
    Foreign,
    /// The same, with two alternate names.
    Named,
    /// A key of `SECOND_ID`, with the same material.
    Second,
    /// The key of `OTHER_ID`.
    Other,
    /// A key of an id that nothing names.
    Unneeded,
}

impl Fed {
    /// Its id.
    fn id(&self) -> [u8; 16] {
        match self {
            Fed::Second => SECOND_ID,
            Fed::Other => OTHER_ID,
            Fed::Unneeded => [9; 16],
            _ => KEY_ID,
        }
    }

    /// Its data key, sealed.
    fn material(&self) -> [u8; 160] {
        let mut material = match self {
            Fed::Other => other_material(),
            _ => material(),
        };
        if matches!(self, Fed::Damaged) {
            material[159] ^= 1;
        }
        material
    }

    /// Who holds its master key.
    fn provider(&self) -> Provider {
        match self {
            Fed::Foreign => Provider::Other,
            _ => Provider::Local,
        }
    }

    /// Its alternate names; `None` where there was no memory.
    fn names(&self, alloc: Global) -> Option<Names> {
        let mut names = Names::new(alloc);
        if matches!(self, Fed::Named) {
            names.push(Bytes::from_slice(alloc, OLD_NAME).ok()?).ok()?;
            names.push(Bytes::from_slice(alloc, NAME).ok()?).ok()?;
        }
        Some(names)
    }

    /// The key that a vault has of it; `None` where there was no memory.
    fn key(&self, alloc: Global) -> Option<KeyDoc> {
        let material = Vec::from_slice(alloc, &self.material()).ok()?;
        Some(KeyDoc {
            id: self.id(),
            names: self.names(alloc)?,
            material: Bytes::from_vec(material),
            provider: self.provider(),
        })
    }
}

/// These keys; `None` where there was no memory.
pub(crate) fn keys(alloc: Global, fed: &[Fed]) -> Option<Vec<KeyDoc>> {
    let mut keys = Vec::new(alloc);
    for each in fed {
        if keys.push(each.key(alloc)?).is_err() {
            return None;
        }
    }
    Some(keys)
}
