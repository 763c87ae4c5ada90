//! What holds of engines, as contracts of functions that do nothing.

ghost use denote.Param.Send.{IsSend};
ghost use Rattle.fle_engine.specs.contracts.engine.Engine.{the_row as engine_row};

use crate::engine::Engine;
use fle_aead::laws::owned_anywhere;

/// Any thread may own an engine: its type is `Send`.
pub fn engines_of_any_thread()
    ensures owned { IsSend engine_row }
{
    owned_anywhere::<Engine>();
}
