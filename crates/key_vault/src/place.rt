//! Where a text stands among keys: an id or a name.

ghost use Rattle.std.specs.Prelude.{◌≡◌, option_copied};
ghost use Rattle.key_vault.specs.Numbers.{is_text, text_at, text_of};

use data_key::KeyDoc;

/// The place of a text.
#[derive(Clone, Copy)]
pub(crate) struct Place {
    /// The number of its key.
    pub(crate) key: u32,
    /// Its number among the names of the key; `None` where it is the id.
    pub(crate) name: Option<usize>,
}

/// Whether this text stands at a place.
pub(crate) fn is_at(keys: &[KeyDoc], place: Place, text: &[u8]) -> bool
    ensures same { result ≡ is_text text.now (text_at keys.now place) }
{
    let number = place.key as usize;
    if number < keys.len() {
        is_text_of(&keys[number], place.name, text)
    } else {
        false
    }
}

/// Whether this text is the id of a key, or its name of this number.
fn is_text_of(key: &KeyDoc, name: Option<usize>, text: &[u8]) -> bool
    ensures same { result ≡ is_text text.now (text_of name key.now) }
{
    match name {
        None => key.id.as_slice() == text,
        Some(i) => {
            let names = key.names.as_slice();
            if i < names.len() {
                names[i].as_slice() == text
            } else {
                false
            }
        }
    }
}
