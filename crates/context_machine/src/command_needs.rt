//! The keys that the values of a command need.

ghost use Rattle.std.specs.Prelude.{◌≡◌, ◌<◌, [], length, map, option_map, unwrap_or, IfOk, IfSome, OnOk};
ghost use Rattle.bson_codec.specs.Borrowed.{At};
ghost use Rattle.context_machine.specs.NameSpans.{AreNeeded, name_in};
ghost use Rattle.context_machine.specs.Needs.{first_needs, need_at_seen, needs_seen, put_new};
ghost use Rattle.context_machine.specs.Rings.{need_at, needs_of};
ghost use Rattle.context_machine.specs.Slots.{AreManySlots};
ghost use Rattle.doc_rewrite.specs.Plans.{AreRuled};
ghost use Rattle.doc_rewrite.specs.Sites.{need_named, site_of, sites_of};
ghost use Rattle.payload6.specs.Needs.{Name, need_seen};

use crate::name_spans::NameSpans;
use crate::need::NeedAt;
use crate::needed::put_new;
use crate::slots::Slots;
use crate::wanted::Wanted;
use bson_codec::RawDoc;
use command_marker::Marked;
use encrypt_schema::{KeyRef, Mark, Marks, Rows, Span};
use fle_outside::Memory;
use payload6::{Need, need_of};
use std::alloc::Global;

/// The keys that the values of a command need which are to be sealed, none of them kept yet.
pub(crate) fn wanted_by<'a>(alloc: Global, marked: &Marked<'a>) -> Result<Wanted<'a>, Memory>
    ensures wanted { IfOk result (λ w.
        w ≡ record { needs = first_needs (needs_of marked.now.rows marked.now.command); kept = [] }) }
{
    let command = marked.command();
    wanted_under(alloc, &command, marked.marks(), marked.rows())
}

/// The keys that the values of these marks of a command need, each the key that its rule names.
fn wanted_under<'a>(
    alloc: Global,
    command: &RawDoc<'a>,
    marks: &Marks,
    rows: &Rows,
) -> Result<Wanted<'a>, Memory>
    requires ruled { AreRuled (length rows.now) marks.now }
    ensures wanted { IfOk result (λ w.
        w ≡ record { needs = first_needs (map need_at (sites_of rows.now command.now marks.now)); kept = [] }) }
{
    let mut needs = Vec::new(alloc);
    let mut slots = Slots::new(alloc);
    let mut names = NameSpans::new(alloc);
    for i in 0..marks.len() {
        match marks.get(i) {
            Some(mark) => put_mark(&mut needs, &mut slots, &mut names, command, &mark, rows)?,
            None => unreachable!(),
        }
    }
    Wanted::new(alloc, needs, slots)
}

/// Appends what the value of a command's mark needs, where it isn't needed yet. The name of a key is looked up only
/// where none stood in its place before: it may be megabytes long, and the name of each value's key.
fn put_mark<'a>(
    needs: &mut Vec<NeedAt<'a>>,
    slots: &mut Slots<'a>,
    names: &mut NameSpans,
    command: &RawDoc<'a>,
    mark: &Mark,
    rows: &Rows,
) -> Result<(), Memory>
    requires ruled { mark.now.policy < length rows.now }
    requires slots { AreManySlots (needs_seen needs.old.items) [] slots.old }
    requires names { AreNeeded command.now (needs_seen needs.old.items) names.old }
    ensures put { OnOk result (needs_seen needs.new.items ≡ put_new (needs_seen needs.old.items)
        (need_at (site_of rows.now command.now mark.now))) }
    ensures slots { OnOk result (AreManySlots (needs_seen needs.new.items) [] slots.new) }
    ensures names { OnOk result (AreNeeded command.now (needs_seen needs.new.items) names.new) }
{
    match name_of(mark, rows) {
        Some(span) => {
            if names.has(span) {
                return Ok(());
            }
            put_new(needs, slots, need_at(command, mark, rows))?;
            names.add(span)
        }
        None => put_new(needs, slots, need_at(command, mark, rows)),
    }
}

/// Where the name of the key of a mark's value stands; `None` where the mark's rule has the key's id.
fn name_of(mark: &Mark, rows: &Rows) -> Option<Span>
    ensures named { IfSome result (λ span. (command : At) → need_named rows.now command mark.now
        ≡ name_in command span) }
{
    match rows.policy(mark.policy) {
        Some(policy) => match &policy.key {
            KeyRef::Id(_) => None,
            KeyRef::Pointer(_) => mark.name,
        },
        None => None,
    }
}

/// What the value of a command's mark needs: the key that its rule names.
fn need_at<'a>(command: &RawDoc<'a>, mark: &Mark, rows: &Rows) -> NeedAt<'a>
    requires ruled { mark.now.policy < length rows.now }
    ensures need { need_at_seen result ≡ need_at (site_of rows.now command.now mark.now) }
{
    match rows.policy(mark.policy) {
        Some(policy) => NeedAt {
            need: named(need_of(policy, command, mark)),
            at: mark.start,
        },
        None => unreachable!(),
    }
}

/// What names a key; a name of no byte where nothing does, as is so of no accepted command.
fn named<'a>(need: Option<Need<'a>>) -> Need<'a>
    ensures need { need_seen result ≡ unwrap_or (option_map need_seen need.entry) (Name []) }
{
    match need {
        Some(need) => need,
        None => Need::Name(&[]),
    }
}
