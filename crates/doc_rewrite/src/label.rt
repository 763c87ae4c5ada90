//! What a payload states of itself.

use encrypt_schema::Algorithm;

/// What a payload states of itself beside the type of its value.
#[derive(Clone, Copy)]
pub(crate) struct Label {
    /// How its value is sealed.
    pub(crate) algorithm: Algorithm,
    /// The id of the data key that seals it, a UUID.
    pub(crate) key_id: [u8; 16],
}
