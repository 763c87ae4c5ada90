//! Why a cache opens no key.

use local_kms::UnwrapFault;

/// Why a cache answers no data key.
#[derive(Clone, Copy, Debug, PartialEq, Eq)]
pub enum OpenStop {
    /// The key's material doesn't open under the master key.
    Unopened(UnwrapFault),
    /// There was no memory to share the data key. It may come at any time.
    Memory,
}
