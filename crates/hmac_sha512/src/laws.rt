//! A law of the MAC. The function does nothing; its clause is the law.

ghost use Rattle.std.specs.Prelude.{◌≡◌};
ghost use Rattle.hmac_sha512.specs.Hmac.{hmac};
ghost use Rattle.hmac_sha512.specs.Published.{mac_2, data_2, key_2};

/// The definitions give the MAC of RFC 4231, 4.3 (test case 2).
pub fn published_mac()
    ensures mac { hmac key_2 data_2 ≡ mac_2 }
{}
