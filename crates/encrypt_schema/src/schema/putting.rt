//! Collection infos that are put and forgotten one by one.

ghost use Rattle.std.specs.Prelude.{◌≡◌, ℕ, List, [], Some, None, false, bytes_eq, if◌then◌else◌};
ghost use Rattle.std.specs.Prelude.{MatchResult};
ghost use Rattle.bson_tree.specs.NameNumbers.{number_of_name};
ghost use Rattle.encrypt_schema.specs.declared.schema.faults.InfoFault.TheVariants as errors;
ghost use Rattle.encrypt_schema.specs.Language.Collection.{collection_of, place_from};
ghost use Rattle.encrypt_schema.specs.Language.Names.{named};
ghost use Rattle.encrypt_schema.specs.Language.Putting.{forgotten, put_collection, put_info, Puts, renumbered};

use crate::schema::collections::{Info, Infos, number_of};
use crate::schema::faults::InfoFault;
use bson_codec::RawDoc;
use std::alloc::Global;
use std::collections::BTreeMap;

/// The most collections: their numbers have 32 bits.
const MOST: usize = 0x7fff_ffff;

impl Infos {
    /// Puts the collection that an info states: in the place of the one of its name, or else behind the others.
    /// `Bad` exactly where the info is faulty, as in a file of it alone. After a fault, and after `Memory`, the
    /// collections are as before.
    pub fn put(&mut self, alloc: Global, info: &RawDoc<'_>) -> Result<(), InfoFault>
        ensures put { Puts self.old self.new result (put_info self.old info.now.tree) }
    {
        let none = Infos::empty(alloc);
        match none.read(alloc, 1, info) {
            Ok(info) => self.put_read(alloc, info),
            Err(fault) => Err(fault),
        }
    }

    /// Forgets the collection of a name, where there is one: the last one takes its place.
    pub fn forget(&mut self, name: &[u8])
        ensures forgotten { self.new ≡ forgotten name.now self.old }
        ensures gone { collection_of self.new name.now ≡ None }
        ensures others { (other : List ℕ) → named name.now other ≡ false
            → collection_of self.new other ≡ collection_of self.old other }
    {
        match number_of(&self.numbers, name) {
            Some(number) => {
                let last = self.infos.len() - 1;
                renumber(&mut self.numbers, self.infos[last].name(), number);
                remove_name(&mut self.numbers, name);
                let _ = self.infos.swap_remove(number as usize);
            }
            None => {}
        }
    }

    /// Forgets all collections, and gives their memory back.
    pub fn clear(&mut self, alloc: Global)
        ensures empty { self.new ≡ [] }
    {
        *self = Infos::empty(alloc);
    }

    /// Puts a collection in the place of the one of its name, or else behind the others.
    fn put_read(&mut self, alloc: Global, info: Info) -> Result<(), InfoFault>
        ensures put { MatchResult result (λ _. self.new ≡ put_collection info self.old)
            (λ e. (e ≡ errors.Memory) × (self.new ≡ self.old)) }
    {
        match number_of(&self.numbers, info.name()) {
            Some(number) => {
                self.replace(number, info);
                Ok(())
            }
            None => self.put_new(alloc, info),
        }
    }

    /// Puts a collection behind the others, whose name none of them has.
    fn put_new(&mut self, alloc: Global, info: Info) -> Result<(), InfoFault>
        requires new { place_from 0 info.name self.old ≡ None }
        ensures put { MatchResult result (λ _. self.new ≡ put_collection info self.old)
            (λ e. (e ≡ errors.Memory) × (self.new ≡ self.old)) }
    {
        if self.infos.len() >= MOST {
            return Err(InfoFault::Memory);
        }
        self.add(alloc, info)
    }

    /// Puts a collection in the place of the one of its name, which has this number.
    fn replace(&mut self, number: u32, info: Info)
        requires there { place_from 0 info.name self.old ≡ Some number }
        ensures put { self.new ≡ put_collection info self.old }
    {
        self.infos[number as usize] = info;
    }
}

/// Takes the number of a name away.
fn remove_name(numbers: &mut BTreeMap<Vec<u8>, u32>, name: &[u8])
    ensures removed { (other : List ℕ) → number_of_name numbers.new other
        ≡ (if bytes_eq name.now other then None else number_of_name numbers.old other) }
{
    let _ = numbers.remove(name);
}

/// Gives a name that has a number another one.
fn renumber(numbers: &mut BTreeMap<Vec<u8>, u32>, name: &[u8], number: u32)
    ensures renumbered { (other : List ℕ) → number_of_name numbers.new other
        ≡ (if bytes_eq name.now other then renumbered number (number_of_name numbers.old other)
        else number_of_name numbers.old other) }
{
    if let Some(there) = numbers.get_mut(name) {
        *there = number;
    }
}
