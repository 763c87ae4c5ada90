//! The keys that are needed, and those that are kept.

ghost use Rattle.std.specs.Prelude.{◌≡◌, ◌<◌, ◌≤◌, ◌∷◌, [], ◌++◌, ◌&&◌, false, true, drop, length, map, not};
ghost use Rattle.std.specs.Prelude.{option_copied, option_map, slice_get, IfOk};
ghost use Rattle.encrypt_schema.specs.Views.Few.{few};
ghost use Rattle.key_vault.specs.Keys.{is_among};
ghost use Rattle.payload6.specs.Needs.{need_seen};
ghost use Rattle.context_machine.specs.Kept.{fed, is_wanted, key_by, meets};
ghost use Rattle.context_machine.specs.Needs.{is_needed, needs_seen};
ghost use Rattle.context_machine.specs.Slots.{AreManySlots};

use crate::need::NeedAt;
use crate::slots::Slots;
use bson_tree::Bytes;
use data_key::KeyDoc;
use encrypt_schema::FEW;
use fle_outside::Memory;
use payload6::Need;
use std::alloc::Global;
use std::marker::Model;

/// The first value of each need, in reading order, and the keys that are kept, in the order in which they were handed
/// in. There is room for each key that is kept from now on, and a slot for its number where the needs aren't few.
#[derive(Drop)]
pub(crate) struct Wanted<'a> {
    needs: Vec<NeedAt<'a>>,
    slots: Slots<'a>,
    kept: Vec<&'a KeyDoc>,
}

impl<'a> Model for Wanted<'a> {
    ghost use Rattle.std.specs.Prelude.{◌≤◌, ◌+◌, map, vec_len, vec_capacity};
    ghost use Rattle.context_machine.specs.Kept.{Wants, lacking};
    ghost use Rattle.context_machine.specs.Needs.{needs_seen};
    ghost use Rattle.context_machine.specs.Slots.{AreManySlots};

    ghost Value = { Wants };

    ghost view = { λ w. record { needs = needs_seen w.needs.items; kept = map (λ k. k.now) w.kept.items } };

    ghost invariant = { λ w. (vec_len w.kept + lacking (map (λ k. k.now) w.kept.items) (needs_seen w.needs.items)
        ≤ vec_capacity w.kept) × AreManySlots (needs_seen w.needs.items) (map (λ k. k.now) w.kept.items) w.slots };
}

impl<'a> Wanted<'a> {
    /// No key is needed. It allocates nothing.
    pub(crate) fn none(alloc: Global) -> Wanted<'a>
        ensures none { result ≡ record { needs = []; kept = [] } }
    {
        Wanted {
            needs: Vec::new(alloc),
            slots: Slots::new(alloc),
            kept: Vec::new(alloc),
        }
    }

    /// These values need keys, each another one, and none is kept yet. `Memory` where there is no room for them.
    pub(crate) fn new(
        alloc: Global,
        needs: Vec<NeedAt<'a>>,
        slots: Slots<'a>,
    ) -> Result<Wanted<'a>, Memory>
        requires slots { AreManySlots (needs_seen needs.items) [] slots }
        ensures wanted { IfOk result (λ w. w ≡ record { needs = needs_seen needs.entry.items; kept = [] }) }
    {
        match Vec::with_capacity(alloc, needs.len()) {
            Ok(kept) => Ok(Wanted { needs, slots, kept }),
            Err(_) => Err(Memory),
        }
    }

    /// The first value of each need.
    pub(crate) fn needs(&self) -> &[NeedAt<'a>]
        ensures needs { needs_seen result.now ≡ self.now.needs }
    {
        &self.needs
    }

    /// Need `i`, counted from 0.
    pub(crate) fn needed(&self, i: usize) -> Option<Need<'a>>
        ensures need { option_map need_seen result ≡ option_map (λ n. n.need) (slice_get self.now.needs i) }
    {
        if i < self.needs.len() {
            Some(self.needs[i].need)
        } else {
            None
        }
    }

    /// Keeps a key where it meets a need that no kept key meets. It allocates nothing.
    pub(crate) fn feed(&mut self, key: &'a KeyDoc)
        ensures needs { self.new.needs ≡ self.old.needs }
        ensures fed { self.new.kept ≡ fed self.old.needs self.old.kept key.entry.now }
    {
        if self.needs.len() > FEW {
            self.feed_many(key);
        } else {
            self.feed_few(key);
        }
    }

    /// The same where there are a few needs: they are looked through.
    fn feed_few(&mut self, key: &'a KeyDoc)
        requires few { length self.old.needs ≤ few }
        ensures needs { self.new.needs ≡ self.old.needs }
        ensures fed { self.new.kept ≡ fed self.old.needs self.old.kept key.entry.now }
    {
        if is_wanted(&self.needs, &self.kept, key) {
            if self.kept.push(key).is_err() {
                unreachable!();
            }
        }
    }

    /// The same where there are many: each has a slot.
    fn feed_many(&mut self, key: &'a KeyDoc)
        requires many { few < length self.old.needs }
        ensures needs { self.new.needs ≡ self.old.needs }
        ensures fed { self.new.kept ≡ fed self.old.needs self.old.kept key.entry.now }
    {
        if self.slots.has_free(key) {
            self.slots.fill(key, self.kept.len());
            if self.kept.push(key).is_err() {
                unreachable!();
            }
        }
    }

    /// The key that meets one of the needs, of those that are kept.
    pub(crate) fn key_by(&self, need: Need<'_>) -> Option<&'a KeyDoc>
        requires needed { is_needed (need_seen need) self.now.needs ≡ true }
        ensures found { option_copied result ≡ key_by self.now.kept (need_seen need.entry) }
    {
        if self.needs.len() > FEW {
            match self.slots.number(need) {
                Some(number) => kept_at(&self.kept, number),
                None => None,
            }
        } else {
            first_kept(&self.kept, need)
        }
    }
}

/// Whether a key meets a need that no kept key meets. All are looked through.
fn is_wanted(needs: &[NeedAt<'_>], kept: &[&KeyDoc], key: &KeyDoc) -> bool
    ensures wanted { result ≡ is_wanted (needs_seen needs.now) (map (λ k. k.now) kept.now) key.now }
{
    for n in needs {
        if meets(n.need, key) && first_kept(kept, n.need).is_none() {
            return true;
        }
    }
    false
}

/// The first key that meets a need of those that are kept, which are looked through.
fn first_kept<'a>(kept: &[&'a KeyDoc], need: Need<'_>) -> Option<&'a KeyDoc>
    ensures found { option_copied result ≡ key_by (map (λ k. k.now) kept.now) (need_seen need.entry) }
{
    for key in kept {
        if meets(need, key) {
            return Some(*key);
        }
    }
    None
}

/// Whether a key meets a need: it has the id, or the name.
fn meets(need: Need<'_>, key: &KeyDoc) -> bool
    ensures meets { result ≡ meets (need_seen need.entry) key.now }
{
    match need {
        Need::Id(id) => key.id == id,
        Need::Name(name) => is_among(key.names.as_slice(), name),
    }
}

/// Whether a name stands among these.
fn is_among(names: &[Bytes], name: &[u8]) -> bool
    ensures among { result ≡ is_among name.now names.now }
{
    for other in names {
        if name == other.as_slice() {
            return true;
        }
    }
    false
}

/// The key of this number of those that are kept, counted from 0.
fn kept_at<'a>(kept: &[&'a KeyDoc], i: usize) -> Option<&'a KeyDoc>
    ensures found { option_copied result ≡ slice_get (map (λ k. k.now) kept.now) i }
{
    if i < kept.len() { Some(kept[i]) } else { None }
}
