//! A command and a reply's result walked in step: they are equal up to the markings of protected values.

ghost use Rattle.std.specs.Prelude.{◌≡◌, ◌+◌, ◌<◌, ◌==◌, ◌&&◌, ◌^◌, length, drop};
ghost use Rattle.command_marker.specs.Splices.{left, left_in};
ghost use Rattle.command_marker.specs.Written.{AreRuled};
ghost use Rattle.reply_check.specs.Matches.{matches, matches_in, test_by};
ghost use Rattle.reply_check.specs.Same.{is_same, is_same_tree};
ghost use Rattle.reply_check.specs.Steps.{Walks};

use crate::markings::is_marking;
use bson_codec::{RawDoc, RawItem};
use bson_splice::Step;
use command_marker::{key_of, next_mark, step_of};
use encrypt_schema::{Mark, Marks, Rows, is_named};

/// Whether a value of a reply is the marking of an element's value by this mark of the command.
fn is_marked_by(
    rows: &Rows,
    command: &RawDoc<'_>,
    mark: &Mark,
    item: &RawItem<'_>,
    other: &RawItem<'_>,
) -> bool
    requires ruled { mark.now.policy < length rows.now }
    ensures marking { result ≡ test_by rows.now command.now mark.now item.now.tree other.now.tree }
{
    let algorithm = rows.policy_at(mark.policy).algorithm;
    is_marking(other, item, algorithm, key_of(rows, command, mark))
}

/// Whether two values are equal: by their types and bytes.
fn is_same(other: &RawItem<'_>, item: &RawItem<'_>) -> bool
    ensures same { result ≡ is_same_tree other.now.tree item.now.tree }
{
    if other.tag() != item.tag() {
        return false;
    }
    other.value() == item.value()
}

/// Walks an element of a command and what stands in its place, from the mark of this number on: the number of the first
/// mark behind it, where they match.
#[cycle(walk)]
fn walk_item<'a>(
    rows: &Rows,
    marks: &Marks,
    command: &RawDoc<'a>,
    next: usize,
    item: &RawItem<'a>,
    other: &RawItem<'_>,
) -> Option<usize>
    requires ruled { AreRuled rows.now marks.now }
    requires few { length marks.now < 2 ^ 31 }
    ensures walked { Walks marks.now (matches_in (test_by rows.now command.now) item.now.start (drop next marks.now)
        item.now.tree other.now.tree) (left_in item.now.start (drop next marks.now) item.now.tree) result }
{
    let mark = next_mark(rows, marks, next);
    match step_of(mark, item) {
        Step::Keep => if is_same(other, item) {
            Some(next)
        } else {
            None
        },
        Step::Put => match mark {
            Some(mark) => if is_marked_by(rows, command, &mark, item, other) {
                Some(next + 1)
            } else {
                None
            },
            None => unreachable!(),
        },
        Step::Open(document) => match other.child() {
            Some(answer) => if other.tag() == item.tag() {
                walk_items(rows, marks, command, next, &document, &answer)
            } else {
                None
            },
            None => None,
        },
    }
}

/// Walks the elements of a document of a command and of what stands in its place, from the mark of this number on: the
/// number of the first mark behind them, where they match.
#[cycle(walk)]
pub(crate) fn walk_items<'a>(
    rows: &Rows,
    marks: &Marks,
    command: &RawDoc<'a>,
    next: usize,
    document: &RawDoc<'a>,
    answer: &RawDoc<'_>,
) -> Option<usize>
    requires ruled { AreRuled rows.now marks.now }
    requires few { length marks.now < 2 ^ 31 }
    ensures walked { Walks marks.now (matches (test_by rows.now command.now) (document.now.start + 4)
        (drop next marks.now) document.now.tree answer.now.tree)
        (left (document.now.start + 4) (drop next marks.now) document.now.tree) result }
{
    let mut behind = next;
    let mut others = answer.items();
    for item in document.items() {
        let Some(other) = others.next() else {
            return None;
        };
        if !is_named(other.name(), item.name()) {
            return None;
        }
        match walk_item(rows, marks, command, behind, &item, &other) {
            Some(number) => behind = number,
            None => return None,
        }
    }
    match others.next() {
        Some(_) => None,
        None => Some(behind),
    }
}

/// Whether two documents are equal: by their bytes.
pub(crate) fn is_same_document(answer: &RawDoc<'_>, document: &RawDoc<'_>) -> bool
    ensures same { result ≡ is_same answer.now.tree document.now.tree }
{
    answer.bytes() == document.bytes()
}
