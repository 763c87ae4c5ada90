//! What holds of clients, as contracts of functions that do nothing.

ghost use denote.Param.Send.{IsSend};
ghost use Rattle.fle_client.specs.contracts.client.Client.{the_row as client_row};

use crate::client::Client;
use fle_aead::laws::owned_anywhere;

/// Any thread may own a client: its type is `Send`.
pub fn clients_of_any_thread()
    ensures owned { IsSend client_row }
{
    owned_anywhere::<Client>();
}
