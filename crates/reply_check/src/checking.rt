//! The two calls that compare a reply with the right one.

ghost use Rattle.std.specs.Prelude.{◌≡◌, Bool, MatchResult, false, nat_lt, length};
ghost use Rattle.bson_tree.specs.Tree.{Items, tag_of};
ghost use Rattle.command_marker.specs.Marked.{marked as marked_command};
ghost use Rattle.command_marker.specs.Reply.{flag};
ghost use Rattle.reply_check.specs.Ordered.{ordered};
ghost use Rattle.reply_check.specs.Right.{IsClear, IsRight};
ghost use Rattle.reply_check.specs.Same.{is_same, is_same_tree};
ghost use Rattle.reply_check.specs.Wrong.{ReadsAs, Tells, wrong_clear, wrong_reply};

use crate::fields::{first_flag, first_misshapen, result_of, second_flag};
use crate::walking::{is_same_document, walk_items};
use crate::wrong::WrongReply;
use bson_codec::{RawDoc, RawItem};
use command_marker::Marked;

/// Whether a reply is the right one for a command that was marked here: its flags say whether a value is marked and
/// whether rules concern the command, and its result is the command with a marking in the place of each protected
/// value, the fields of each marking in any order. It allocates nothing.
///
/// `Shape` tells the first element that is read and has another type or stands a second time, or 0 where one is
/// missing; `Differs` tells the first flag, else the second flag, else the result: the first that isn't the right one.
pub fn check_reply(marked: &Marked<'_>, reply: &RawDoc<'_>) -> Result<(), WrongReply>
    ensures right { MatchResult result (λ _. IsRight marked.now.rows marked.now.command.tree reply.now.tree)
        (λ _. IsRight marked.now.rows marked.now.command.tree reply.now.tree → ⊥) }
    ensures wrong { Tells (wrong_reply marked.now.rows marked.now.command.tree reply.now) result }
{
    let _ = marked.command();
    match read_reply(reply, marked.marks().len() > 0, marked.rows().len() > 0) {
        Ok(found) => match found.child() {
            Some(answer) => if is_marked(marked, &answer) {
                Ok(())
            } else {
                Err(differs(&found))
            },
            None => unreachable!(),
        },
        Err(wrong) => Err(wrong),
    }
}

/// The same for a command that no rule concerns, since it passes or its collection has no rules: both flags are false,
/// and the result is the command as it is. It allocates nothing.
pub fn check_passed(command: &RawDoc<'_>, reply: &RawDoc<'_>) -> Result<(), WrongReply>
    ensures right { MatchResult result (λ _. IsClear command.now.tree reply.now.tree)
        (λ _. IsClear command.now.tree reply.now.tree → ⊥) }
    ensures wrong { Tells (wrong_clear command.now.tree reply.now) result }
{
    match read_reply(reply, false, false) {
        Ok(element) => match element.child() {
            Some(answer) => if is_same_document(&answer, command) {
                Ok(())
            } else {
                Err(differs(&element))
            },
            None => unreachable!(),
        },
        Err(wrong) => Err(wrong),
    }
}

/// The result of a reply whose shape and flags are right, or what is wrong with them.
fn read_reply<'a>(reply: &RawDoc<'a>, marked: bool, ruled: bool) -> Result<RawItem<'a>, WrongReply>
    ensures read { ReadsAs marked ruled reply.now result }
{
    if let Some(at) = first_misshapen(reply) {
        return Err(WrongReply::Shape { at });
    }
    let Some(first) = first_flag(reply) else {
        return Err(WrongReply::Shape { at: 0 });
    };
    let Some(second) = second_flag(reply) else {
        return Err(WrongReply::Shape { at: 0 });
    };
    let Some(result) = result_of(reply) else {
        return Err(WrongReply::Shape { at: 0 });
    };
    if !is_flag(&first, marked) {
        return Err(differs(&first));
    }
    if !is_flag(&second, ruled) {
        return Err(differs(&second));
    }
    Ok(result)
}

/// That this element differs.
fn differs(element: &RawItem<'_>) -> WrongReply
    ensures differs { result ≡ WrongReply.Differs element.now.start }
{
    let _ = element.value();
    WrongReply::Differs {
        at: element.start() as u32,
    }
}

/// Whether an element is this flag.
fn is_flag(element: &RawItem<'_>, set: bool) -> bool
    ensures flag { result ≡ is_same_tree element.now.tree (flag set) }
{
    element.tag() == 8 && element.value() == [if set { 1 } else { 0 }].as_slice()
}

/// Whether a result is the marked command, up to the order of the fields in its markings.
fn is_marked(marked: &Marked<'_>, answer: &RawDoc<'_>) -> bool
    ensures same { result ≡ is_same (ordered marked.now.rows marked.now.command.tree answer.now.tree)
        (marked_command marked.now.rows marked.now.command.tree) }
{
    let command = marked.command();
    let _ = command.bytes();
    walk_items(marked.rows(), marked.marks(), &command, 0, &command, answer).is_some()
}
