//! The slots of rules: rules whose keys are one JSON pointer have one slot, so that where it leads in a document is
//! kept once for all of them.

ghost use Rattle.std.specs.Prelude.{◌≡◌, ◌<◌, ◌≤◌, ◌+◌, ◌++◌, ◌∷◌, [], ℕ, List, length, Some, IfSome, OnOk};
ghost use Rattle.std.specs.Prelude.{bytes_eq, if◌then◌else◌};
ghost use Rattle.bson_tree.specs.NameNumbers.{number_of_name};
ghost use Rattle.encrypt_schema.specs.Language.Policies.{policy_at};
ghost use Rattle.encrypt_schema.specs.Language.Row.{Row};
ghost use Rattle.encrypt_schema.specs.Views.Slots.{AreSlots, nth_known};

use fle_outside::Memory;
use std::alloc::Global;
use std::collections::BTreeMap;

/// The slots of rules, numbered 0, 1, 2 .. as their pointers come.
#[derive(Drop)]
pub(crate) struct Slots {
    /// The slot of each rule; none where an id names its key.
    slots: Vec<Option<u32>>,
    /// How many slots there are.
    count: u32,
    /// The number of the first rule of each pointer, in the order of the pointers' texts: whoever writes the schema
    /// chooses these, and whichever he chooses, one is found by as many comparisons as the logarithm of their number.
    firsts: BTreeMap<Vec<u8>, u32>,
}

impl Slots {
    /// No rule has a slot. It allocates nothing.
    #[tactic(auto, using(crate::proofs::Paths::Sharing::no_slots))]
    pub(crate) fn none(alloc: Global) -> Slots
        ensures none { AreSlots result.slots.items result.count [] }
    {
        Slots {
            slots: Vec::new(alloc),
            count: 0,
            firsts: BTreeMap::new(alloc),
        }
    }

    /// Takes all rules away.
    #[tactic(auto, using(crate::proofs::Paths::Sharing::no_slots))]
    pub(crate) fn clear(&mut self)
        ensures none { AreSlots self.new.slots.items self.new.count [] }
    {
        self.slots.clear();
        self.count = 0;
        self.firsts.clear();
    }

    /// The slot of each rule.
    pub(crate) fn as_slice(&self) -> &[Option<u32>]
        ensures same { result.now ≡ self.now.slots.items }
    {
        &self.slots
    }

    /// The number of the first rule whose pointer has this text.
    pub(crate) fn first(&self, text: &[u8]) -> Option<u32>
        ensures first { result ≡ number_of_name self.now.firsts text.now }
    {
        self.firsts.get(text).copied()
    }

    /// Adds the slot of one more rule, of this pointer where it has one: that of the rule of number `same`, whose key
    /// is the same, or else a new one.
    pub(crate) fn add(
        &mut self,
        alloc: Global,
        text: Option<&[u8]>,
        same: Option<u32>,
    ) -> Result<(), Memory>
        requires few { length self.old.slots.items < 4096 }
        requires count { self.old.count ≤ length self.old.slots.items }
        ensures added { OnOk result ((rows : List Row) (row : Row) → AreSlots self.old.slots.items self.old.count rows
            → IfSome same (λ i. (policy_at i rows).key ≡ row.policy.key)
            → AreSlots self.new.slots.items self.new.count (rows ++ row ∷ [])) }
    {
        let Some(text) = text else {
            self.push(None)?;
            return Ok(());
        };
        match same {
            Some(i) => {
                let slot = self.slot(i);
                self.push(slot)?;
                Ok(())
            }
            None => {
                self.push_new(alloc, text)?;
                Ok(())
            }
        }
    }

    /// The slot of the rule of this number.
    fn slot(&self, i: u32) -> Option<u32>
        ensures slot { result ≡ nth_known self.now.slots.items i }
    {
        nth_slot(&self.slots, i)
    }

    /// Adds the slot of one more rule.
    fn push(&mut self, slot: Option<u32>) -> Result<(), Memory>
        ensures pushed { OnOk result (self.new.slots.items ≡ self.old.slots.items ++ slot ∷ []) }
        ensures count { self.new.count ≡ self.old.count }
    {
        if self.slots.push(slot).is_err() {
            return Err(Memory);
        }
        Ok(())
    }

    /// Adds a new slot for one more rule, the first whose pointer has this text.
    fn push_new(&mut self, alloc: Global, text: &[u8]) -> Result<(), Memory>
        requires few { length self.old.slots.items < 4096 }
        requires count { self.old.count ≤ length self.old.slots.items }
        ensures pushed { OnOk result (self.new.slots.items ≡ self.old.slots.items ++ Some self.old.count ∷ []) }
        ensures count { OnOk result (self.new.count ≡ self.old.count + 1) }
    {
        let number = self.slots.len() as u32;
        note_first(alloc, &mut self.firsts, text, number)?;
        self.push(Some(self.count))?;
        self.count += 1;
        Ok(())
    }
}

/// Gives the text of a pointer the number of the first rule of this pointer.
fn note_first(
    alloc: Global,
    firsts: &mut BTreeMap<Vec<u8>, u32>,
    text: &[u8],
    number: u32,
) -> Result<(), Memory>
    ensures put { OnOk result ((other : List ℕ) → number_of_name firsts.new other
        ≡ (if bytes_eq text.now other then Some number else number_of_name firsts.old other)) }
{
    let Ok(copy) = Vec::from_slice(alloc, text) else {
        return Err(Memory);
    };
    match firsts.insert(copy, number) {
        Ok(_) => {
            return Ok(());
        }
        Err(_) => {
            return Err(Memory);
        }
    }
}

/// The slot of the rule of this number; none where it has none, or isn't there.
pub(crate) fn nth_slot(slots: &[Option<u32>], i: u32) -> Option<u32>
    ensures slot { result ≡ nth_known slots.now i }
{
    let i = i as usize;
    if i < slots.len() { slots[i] } else { None }
}
