//! Documents, values, and lists of named values.

ghost use Rattle.std.specs.Prelude.{◌≡◌, ◌+◌, ◌<◌, option_map, option_copied, OnOk, OnErr, IfErr};
ghost use Rattle.bson_tree.specs.Tree.{no_items, item, count, join, after, name_at, nth};
ghost use Rattle.bson_tree.specs.View.{tree};

use crate::bytes::Bytes;
use std::alloc::Global;
use std::marker::Model;

/// A value: the type byte of BSON 1.1 and what it holds. Types 03 and 04, embedded document and
/// array, have `Kids`, all others `Raw`.
#[cycle(tree)]
#[derive(Drop)]
pub struct Value {
    /// The type byte.
    pub tag: u8,
    /// The bytes or the named values.
    pub body: Body,
}

/// What a value holds.
#[cycle(tree)]
#[derive(Drop)]
pub enum Body {
    /// The bytes of the value as they stand in a document.
    Raw(Bytes),
    /// The named values of an embedded document or an array.
    Kids(Kids),
}

/// Named values in order. A name may stand twice.
#[cycle(tree)]
#[derive(Drop)]
pub struct Kids {
    pub(crate) items: Vec<(Bytes, Value)>,
}

/// A document.
#[derive(Drop)]
pub struct Doc {
    /// Its named values.
    pub kids: Kids,
}

impl Model for Kids {
    ghost use Rattle.bson_tree.specs.Tree.{Items, items_size};
    ghost use Rattle.bson_tree.specs.Code.{coded_items};

    ghost Value = { Items };

    ghost coded = { coded_items };

    ghost use Rattle.bson_tree.specs.View.{items_of};

    ghost view = { λ k. items_of k.items.items };

    ghost size = { items_size };

    ghost use Rattle.bson_tree.specs.Falls.{falls};

    ghost size_decreases = { λ a h. falls a.items.items };
}

#[tactic(auto, using(crate::proofs::Lists::children))]
impl Kids {
    /// The empty list; it allocates nothing.
    pub fn new(alloc: Global) -> Kids
        ensures empty { result ≡ no_items }
    {
        Kids {
            items: Vec::new(alloc),
        }
    }

    /// Appends a named value. Where there is no memory for it, the pair comes back and the list is as
    /// before.
    pub fn push(&mut self, name: Bytes, value: Value) -> Result<(), (Bytes, Value)>
        ensures appended { OnOk result (self.new ≡ join self.old (item name (tree value) no_items)) }
        ensures back { IfErr result (λ pair. (pair.0 ≡ name) × (pair.1 ≡ value)) }
        ensures same { OnErr result (self.new ≡ self.old) }
    {
        match self.items.push((name, value)) {
            Ok(()) => Ok(()),
            Err(failed) => Err(failed.value),
        }
    }

    /// How many named values there are.
    pub fn len(&self) -> usize
        ensures number { result ≡ count self.now }
    {
        self.items.len()
    }

    /// The name of child number `i`, from 0.
    pub fn name(&self, i: usize) -> Option<&Bytes>
        ensures found { option_copied result ≡ name_at i self.now }
    {
        if i < self.items.len() {
            Some(&self.items[i].0)
        } else {
            None
        }
    }

    /// The value of child number `i`, from 0.
    pub fn value(&self, i: usize) -> Option<&Value>
        ensures found { option_map (λ v. tree v.now) result ≡ nth i self.now }
    {
        if i < self.items.len() {
            Some(&self.items[i].1)
        } else {
            None
        }
    }

    /// The name and the value of child number `i`, which is below `len`.
    pub fn item(&self, i: usize) -> (&Bytes, &Value)
        requires { i < count self.now }
        ensures parts { after i self.now ≡ item result.0.now (tree result.1.now) (after (i + 1) self.now) }
    {
        let pair = &self.items[i];
        (&pair.0, &pair.1)
    }
}
