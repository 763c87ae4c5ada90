//! The states in which a command is sealed and a document is opened (MongoDB Client Side Encryption; libmongocrypt's
//! states).
//!
//! A command goes from [`EncryptStart`] by [`NeedCollInfo`], [`NeedMarkings`], [`NeedKeys`] and [`Ready`] to [`Done`].
//! Each step takes a state and gives the next one, or refuses with the reason and the place, and where the step can be
//! taken again it gives the state back.
//!
//! ```text
//! let Begun::Ask(mut asks) = EncryptStart::new(b"hr", command).begin()? else { .. };
//! asks.feed(info);
//! let mut waits = asks.done()?.mark_here(alloc)?;
//! waits.feed(key);
//! let done = waits.done(alloc, &master, &hooks)?.finalize(&hooks, &mut entropy)?;
//! ```
//!
//! Nothing here does input or output: what is asked for are bytes, and what was found is handed in. Commands, infos and
//! keys are borrowed.
#![tactic(auto)]

mod asking;
mod begun;
mod command_needs;
mod decrypt_done;
mod decrypt_need_keys;
mod decrypt_ready;
mod done;
mod encrypt_start;
pub mod info_laws;
mod keys_asked;
pub mod laws;
mod name_spans;
mod need;
mod need_coll_info;
mod need_keys;
mod need_markings;
mod needed;
mod opened_keys;
mod payload_needs;
mod ready;
mod replying;
mod slots;
mod vault_keys;
mod wanted;

pub use begun::Begun;
pub use decrypt_done::DecryptDone;
pub use decrypt_need_keys::DecryptNeedKeys;
pub use decrypt_ready::DecryptReady;
pub use done::Done;
pub use encrypt_start::EncryptStart;
pub use need::NeedAt;
pub use need_coll_info::NeedCollInfo;
pub use need_keys::NeedKeys;
pub use need_markings::NeedMarkings;
pub use opened_keys::KeysStop;
pub use payload6::Need;
pub use ready::Ready;
pub use replying::ReplyStop;
pub use vault_keys::{filter_beside, key_by};
