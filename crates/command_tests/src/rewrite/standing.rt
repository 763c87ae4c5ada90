//! Whether marks stand in a document: tests ask it before they call `plan_seal`.

ghost use Rattle.std.specs.Prelude.{◌≡◌, ◌+◌, ◌<◌, ◌^◌, ◌∷◌, [], drop, false, is_some, length, IfSome, IsTrue};
ghost use Rattle.std.specs.Prelude.{MatchOption};
ghost use Rattle.encrypt_schema.specs.Commands.Offences.{is_pointer};
ghost use Rattle.payload6.specs.Needs.{need_seen};
ghost use Rattle.doc_rewrite.specs.Keys.{key_in};
ghost use Rattle.doc_rewrite.specs.Plans.{AreMarksOf, AreNamed, AreRuled, IsNamed};
ghost use Rattle.doc_rewrite.specs.Sealing.{HasKeys};
ghost use Rattle.doc_rewrite.specs.Sites.{site_seen};
ghost use Rattle.doc_rewrite.specs.Standing.{DocumentTakes, ElementTakes};

use bson_codec::{RawDoc, RawItem};
use doc_rewrite::{KeyTable, Plan, Site, Sites, sites_of};
use encrypt_schema::{KeyRef, Mark, Marks, Policy, Rows};
use payload6::Need;

/// The site of this number, counted from 0.
fn site_at<'a>(sites: &Sites<'a>, i: usize) -> Option<Site<'a>>
    ensures first { MatchOption result (drop i sites.now ≡ [])
        (λ s. drop i sites.now ≡ site_seen s ∷ drop (i + 1) sites.now) }
    ensures counted { IfSome result (λ s. i + 1 < 2 ^ 64) }
{
    if i < sites.len() { sites.get(i) } else { None }
}

/// The number of the site behind those of an element.
#[cycle(stand)]
fn stand_at(sites: &Sites<'_>, next: usize, item: &RawItem<'_>) -> Option<usize>
    ensures taken { IfSome result (λ n. ElementTakes item.now (drop next sites.now) (drop n sites.now)) }
{
    let Some(site) = site_at(sites, next) else {
        return Some(next);
    };
    let start = item.start();
    let end = start + item.value().len();
    if site.start as usize == start {
        return if site.end as usize == end {
            Some(next + 1)
        } else {
            None
        };
    }
    match item.child() {
        Some(document) => stand_inside(sites, next, &document),
        None => Some(next),
    }
}

/// The number of the site behind those of a document.
#[cycle(stand)]
fn stand_inside(sites: &Sites<'_>, next: usize, document: &RawDoc<'_>) -> Option<usize>
    ensures taken { IfSome result (λ n. DocumentTakes document.now (drop next sites.now) (drop n sites.now)) }
{
    let mut here = next;
    for item in document.items() {
        match stand_at(sites, here, &item) {
            Some(behind) => here = behind,
            None => return None,
        }
    }
    Some(here)
}

/// Whether all rules of the marks are there.
fn are_ruled(marks: &Marks, rows: &Rows) -> bool
    ensures ruled { IsTrue result → AreRuled (length rows.now) marks.now }
{
    for i in 0..marks.len() {
        match marks.get(i) {
            Some(mark) => if mark.policy >= rows.len() {
                return false;
            },
            None => return false,
        }
    }
    true
}

/// Whether a policy has a key's id.
fn is_by_id(policy: &Policy) -> bool
    ensures id { IsTrue result → is_pointer policy.now.key ≡ false }
{
    match &policy.key {
        KeyRef::Id(_) => true,
        KeyRef::Pointer(_) => false,
    }
}

/// Whether a mark has no name, and its rule a key's id.
fn is_named(document: &RawDoc<'_>, mark: &Mark, rows: &Rows) -> bool
    ensures named { IsTrue result → IsNamed rows.now document.now mark.now }
{
    match mark.name {
        Some(_) => return false,
        None => {}
    }
    match rows.policy(mark.policy) {
        Some(policy) => is_by_id(policy),
        None => false,
    }
}

/// Whether no mark has a name, and all rules have keys' ids.
fn are_named(document: &RawDoc<'_>, marks: &Marks, rows: &Rows) -> bool
    ensures named { IsTrue result → AreNamed rows.now document.now marks.now }
{
    for i in 0..marks.len() {
        match marks.get(i) {
            Some(mark) => if !is_named(document, &mark, rows) {
                return false;
            },
            None => return false,
        }
    }
    true
}

/// Whether the marks, all of rules by keys' ids, are what `plan_seal` asks of them.
pub(crate) fn stand<'a>(document: &RawDoc<'a>, marks: &'a Marks, rows: &'a Rows) -> bool
    ensures stand { IsTrue result → AreMarksOf rows.now marks.now document.now }
{
    if !are_ruled(marks, rows) || !are_named(document, marks, rows) {
        return false;
    }
    let sites = sites_of(document, marks, rows);
    match stand_inside(&sites, 0, document) {
        Some(n) => n == sites.len(),
        None => false,
    }
}

/// Whether the key to which an id or a name leads is there.
fn is_there(keys: &KeyTable, need: Need<'_>) -> bool
    ensures there { result ≡ is_some (key_in keys.now (need_seen need.entry)) }
{
    match need {
        Need::Id(id) => keys.find(&id).is_some(),
        Need::Name(name) => keys.find_named(name).is_some(),
    }
}

/// Whether the key of each site of a plan is there.
pub(crate) fn keys_there(plan: &Plan<'_>, keys: &KeyTable) -> bool
    ensures keyed { IsTrue result → HasKeys (key_in keys.now) plan.now.sites }
{
    let sites = plan.sites();
    for i in 0..sites.len() {
        match sites.get(i) {
            Some(site) => if !is_there(keys, site.need) {
                return false;
            },
            None => return false,
        }
    }
    true
}
