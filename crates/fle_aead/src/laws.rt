//! What holds of sealed messages whatever the key, as contracts of functions that do nothing: a
//! proof calls one, or cites it, for the fact that it ensures.

ghost use Rattle.std.specs.Prelude.{◌≡◌, length, List, Some, ℕ};
ghost use denote.Param.Send.{IsSend, IsSync};
ghost use Rattle.cbc_mode.specs.Padding.{pad};
ghost use Rattle.fle_aead.specs.contracts.key.DataKey.{the_row as data_row};
ghost use Rattle.fle_aead.specs.contracts.shared_key.SharedKey.{the_row as shared_row};
ghost use Rattle.fle_aead.specs.Sealed.{IsSealed, IsSealedLength, IsTagged, iv_of, opened, opened_message};

use crate::key::DataKey;
use crate::shared_key::SharedKey;

/// A sealed message determines its IV and its message, its length, tag and
/// padding are right, and it opens to its message.
pub fn sealing()
    ensures determined { (key a iv p iv' p' c : List ℕ) → IsSealed key a iv p c
        → IsSealed key a iv' p' c → (iv ≡ iv') × (p ≡ p') }
    ensures length { (key a iv p c : List ℕ) → IsSealed key a iv p c
        → IsSealedLength (length c) }
    ensures tagged { (key a iv p c : List ℕ) → IsSealed key a iv p c → IsTagged key a c }
    ensures iv { (key a iv p c : List ℕ) → IsSealed key a iv p c → iv_of c ≡ iv }
    ensures opens { (key a iv p c : List ℕ) → IsSealed key a iv p c → opened key c ≡ pad p }
    ensures message { (key a iv p c : List ℕ) → IsSealed key a iv p c
        → opened_message key a c ≡ Some p }
{}

/// Any thread may own a data key, and a share of one, and read it beside others: both types are `Send` and `Sync`.
pub fn keys_of_any_thread()
    ensures owned { IsSend data_row × IsSend shared_row }
    ensures read { IsSync data_row × IsSync shared_row }
{
    owned_anywhere::<DataKey>();
    owned_anywhere::<SharedKey>();
    read_anywhere::<DataKey>();
    read_anywhere::<SharedKey>();
}

/// Any thread may own a value of a type that is `Send`.
pub fn owned_anywhere<T: Send>()
    ensures owned { IsSend T.row }
{}

/// Threads may read a value of a type that is `Sync` side by side.
pub fn read_anywhere<T: Sync>()
    ensures read { IsSync T.row }
{}
