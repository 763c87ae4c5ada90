//! What becomes of a command once its fields were looked at.

use crate::need_coll_info::NeedCollInfo;
use bson_codec::RawDoc;

/// What becomes of a command whose fields aren't refused by themselves.
#[derive(Drop)]
pub enum Begun<'a> {
    /// It passes as it is: nothing of it is ever sealed.
    Pass(RawDoc<'a>),
    /// It is an insert, an update, a delete or a find, and the info of its collection is asked for.
    Ask(NeedCollInfo<'a>),
}
