//! A slot for each need, for the number of the key that meets it: by id, and by alternate name. Slots are found in the
//! order of the ids and of the names: whoever writes a document chooses both, and can't make a search long by them, as
//! by hashes that collide.

ghost use Rattle.std.specs.Prelude.{◌≡◌, ◌&&◌, ◌||◌, ℕ, List, [], None, Some, bytes_eq, drop, take, is_some, OnOk};
ghost use Rattle.std.specs.Prelude.{if◌then◌else◌, option_copied};
ghost use Rattle.payload6.specs.Needs.{Id, Name, Need as NeedSeen, need_seen};
ghost use Rattle.context_machine.specs.Kept.{meets};
ghost use Rattle.context_machine.specs.Needs.{is_same};
ghost use Rattle.context_machine.specs.Slots.{AreSlots, has_free, id_slot, is_free, is_one_free, name_slot, number_in};
ghost use Rattle.context_machine.specs.Slots.{slot_of};

use bson_tree::Bytes;
use data_key::KeyDoc;
use fle_outside::Memory;
use payload6::Need;
use std::alloc::Global;
use std::collections::BTreeMap;

/// The slots of needs: free, or with the number of a key.
#[derive(Drop)]
pub(crate) struct Slots<'a> {
    ids: BTreeMap<[u8; 16], Option<usize>>,
    names: BTreeMap<&'a [u8], Option<usize>>,
}

impl<'a> Slots<'a> {
    /// No slot. It allocates nothing.
    pub(crate) fn new(alloc: Global) -> Slots<'a>
        ensures none { AreSlots [] [] result }
    {
        Slots {
            ids: BTreeMap::new(alloc),
            names: BTreeMap::new(alloc),
        }
    }

    /// Whether a need has a slot.
    pub(crate) fn has(&self, need: Need<'_>) -> bool
        ensures has { result ≡ is_some (slot_of self.now (need_seen need.entry)) }
    {
        match need {
            Need::Id(id) => self.ids.contains_key(&id),
            Need::Name(name) => self.names.contains_key(name),
        }
    }

    /// The number in the slot of a need; `None` where it is free, or the need has none.
    pub(crate) fn number(&self, need: Need<'_>) -> Option<usize>
        ensures number { result ≡ number_in (slot_of self.now (need_seen need.entry)) }
    {
        match need {
            Need::Id(id) => number_in(self.ids.get(&id)),
            Need::Name(name) => number_in(self.names.get(name)),
        }
    }

    /// Makes a free slot of a need.
    pub(crate) fn add(&mut self, need: Need<'a>) -> Result<(), Memory>
        ensures put { OnOk result ((other : NeedSeen) → slot_of self.new other
            ≡ (if is_same (need_seen need.entry) other then Some None else slot_of self.old other)) }
    {
        match need {
            Need::Id(id) => add_id(&mut self.ids, id),
            Need::Name(name) => add_name(&mut self.names, name),
        }
    }

    /// Whether a slot is free that a key meets: that of its id, or of one of its names.
    pub(crate) fn has_free(&self, key: &KeyDoc) -> bool
        ensures free { result ≡ has_free self.now key.now }
    {
        self.is_free(Need::Id(key.id)) || self.is_one_free(key.names.as_slice())
    }

    /// Whether the slot of one of these names is free.
    fn is_one_free(&self, names: &[Bytes]) -> bool
        ensures free { result ≡ is_one_free self.now names.now }
    {
        for name in names {
            if self.is_free(Need::Name(name.as_slice())) {
                return true;
            }
        }
        false
    }

    /// Whether a need has a slot, and nothing stands in it.
    fn is_free(&self, need: Need<'_>) -> bool
        ensures free { result ≡ is_free (slot_of self.now (need_seen need.entry)) }
    {
        match need {
            Need::Id(id) => is_free(self.ids.get(&id)),
            Need::Name(name) => is_free(self.names.get(name)),
        }
    }

    /// Puts a key's number into each free slot that the key meets. It allocates nothing.
    pub(crate) fn fill(&mut self, key: &KeyDoc, number: usize)
        ensures filled { (need : NeedSeen) → slot_of self.new need
            ≡ (if is_free (slot_of self.old need) && meets need key.now then Some (Some number)
            else slot_of self.old need) }
    {
        fill_id(&mut self.ids, &key.id, number);
        for name in key.names.as_slice() {
            fill_name(&mut self.names, name.as_slice(), number);
        }
    }
}

/// The number in a slot that was looked up.
fn number_in(slot: Option<&Option<usize>>) -> Option<usize>
    ensures number { result ≡ number_in (option_copied slot.entry) }
{
    match slot {
        Some(slot) => *slot,
        None => None,
    }
}

/// Whether a slot that was looked up is there, and nothing stands in it.
fn is_free(slot: Option<&Option<usize>>) -> bool
    ensures free { result ≡ is_free (option_copied slot.entry) }
{
    match slot {
        Some(slot) => slot.is_none(),
        None => false,
    }
}

/// Makes a free slot of an id.
fn add_id(ids: &mut BTreeMap<[u8; 16], Option<usize>>, id: [u8; 16]) -> Result<(), Memory>
    ensures put { OnOk result ((other : List ℕ) → id_slot ids.new other
        ≡ (if bytes_eq id other then Some None else id_slot ids.old other)) }
{
    match ids.insert(id, None) {
        Ok(_) => Ok(()),
        Err(_) => Err(Memory),
    }
}

/// Makes a free slot of a name.
fn add_name<'a>(names: &mut BTreeMap<&'a [u8], Option<usize>>, name: &'a [u8]) -> Result<(), Memory>
    ensures put { OnOk result ((other : List ℕ) → name_slot names.new other
        ≡ (if bytes_eq name.now other then Some None else name_slot names.old other)) }
{
    match names.insert(name, None) {
        Ok(_) => Ok(()),
        Err(_) => Err(Memory),
    }
}

/// Puts a number into the slot of an id where it has one and it is free.
fn fill_id(ids: &mut BTreeMap<[u8; 16], Option<usize>>, id: &[u8; 16], number: usize)
    ensures filled { (other : List ℕ) → id_slot ids.new other
        ≡ (if is_free (id_slot ids.old id.now) && bytes_eq id.now other then Some (Some number)
        else id_slot ids.old other) }
{
    if !is_free(ids.get(id)) {
        return;
    }
    if let Some(slot) = ids.get_mut(id) {
        *slot = Some(number);
    }
}

/// Puts a number into the slot of a name where it has one and it is free.
fn fill_name<'a>(names: &mut BTreeMap<&'a [u8], Option<usize>>, name: &[u8], number: usize)
    ensures filled { (other : List ℕ) → name_slot names.new other
        ≡ (if is_free (name_slot names.old name.now) && bytes_eq name.now other then Some (Some number)
        else name_slot names.old other) }
{
    if !is_free(names.get(name)) {
        return;
    }
    if let Some(slot) = names.get_mut(name) {
        *slot = Some(number);
    }
}
