//! A message that lies in memory whole.

ghost use Rattle.std.specs.Prelude.{◌≡◌};
ghost use Rattle.hmac_sha512.specs.Hmac.{hmac};

use crate::running::Mac;

/// The MAC of one message under a key, HMAC-SHA-512 (RFC 2104). Both may have any length.
pub fn mac(key: &[u8], message: &[u8]) -> [u8; 64]
    ensures mac { result ≡ hmac key.now message.now }
{
    let mut running = Mac::new(key);
    running.update(message);
    running.finish()
}
