//! The elements of a checked document, one after the other.

ghost use Rattle.std.specs.Prelude.{◌≡◌, ◌+◌, ◌<◌, ◌^◌, option_map};
ghost use Rattle.bson_tree.specs.Tree.{count};
ghost use Rattle.bson_tree.specs.Spelling.{items_bytes};
ghost use Rattle.bson_codec.specs.Borrowed.{holding};
ghost use Rattle.bson_codec.specs.Cuts.{items_before, items_from};
ghost use Rattle.bson_codec.specs.Elements.{TakesElement, elements_left};

use crate::borrowed::RawDoc;
use crate::cut::cut_before;
use crate::front::parts_of;
use crate::item::{RawItem, holds_offset};
use std::marker::Model;

/// The elements that are left of a checked document, and the offset of the first of them.
#[derive(Drop)]
pub struct RawIter<'a> {
    rest: &'a [u8],
    at: usize,
}

impl<'a> Model for RawIter<'a> {
    ghost use Rattle.std.specs.Prelude.{◌<◌, ◌+◌, ◌^◌, length};
    ghost use Rattle.bson_codec.specs.Borrowed.{At, coded_at, elements_of, SpellsElements};

    ghost Value = { At };

    ghost coded = { coded_at };

    ghost view = { λ i. record { tree = elements_of i.rest.now; start = i.at } };

    ghost invariant = { λ i. (i.at + length i.rest.now < 2 ^ 31) × SpellsElements i.rest.now };
}

impl<'a> RawDoc<'a> {
    /// The elements in order.
    pub fn items(&self) -> RawIter<'a>
        ensures elements { result ≡ record { tree = self.now.tree; start = self.now.start + 4 } }
        ensures few { count self.now.tree < 2 ^ 31 }
    {
        let n = self.bytes.len();
        RawIter {
            rest: &self.bytes[4..n - 1],
            at: self.start + 4,
        }
    }

    /// The element whose value begins at `at` or, being a document or an array, holds it, and its number from 0;
    /// `None` exactly where there is none.
    pub fn child_holding(&self, at: usize) -> Option<(u32, RawItem<'a>)>
        ensures found { option_map (λ x. (x.0, x.1)) result ≡ holding at 0 (self.now.start + 4) self.now.tree }
    {
        let mut number = 0;
        for item in self.items() {
            if holds_offset(&item, at) {
                return Some((number, item));
            }
            number += 1;
        }
        None
    }
}

impl<'a> RawIter<'a> {
    /// The same elements again.
    pub fn again(&self) -> RawIter<'a>
        ensures same { result ≡ self.now }
    {
        RawIter {
            rest: self.rest,
            at: self.at,
        }
    }

    /// Takes the elements up to the first whose value begins at the offset `at` or, being a document or an array, ends
    /// behind it: the bytes of those before it, as they stand, and it. All of them and `None`, where there is no such
    /// element, or no offset.
    pub fn skip_to(&mut self, at: Option<usize>) -> (&'a [u8], Option<RawItem<'a>>)
        ensures bytes { result.0.now ≡ items_bytes (items_before at self.old) }
        ensures taken { TakesElement (items_from at self.old) result.1 self.new }
    {
        let (width, met) = cut_before(self.rest, self.at, at);
        let (skipped, rest) = self.rest.split_at(width);
        match met {
            None => {
                self.rest = rest;
                self.at += width;
                (skipped, None)
            }
            Some(parts) => {
                let start = self.at + width + (2 + parts.name.len());
                let item = RawItem {
                    tag: parts.tag,
                    name: parts.name,
                    value: parts.value,
                    start,
                };
                self.rest = parts.rest;
                self.at = start + parts.value.len();
                (skipped, Some(item))
            }
        }
    }
}

impl<'a> Iterator for RawIter<'a> {
    type Item = RawItem<'a>;

    ghost next_gives = { TakesElement };

    ghost remaining = { elements_left };

    fn next(&mut self) -> Option<RawItem<'a>> {
        let Some(parts) = parts_of(self.rest) else {
            return None;
        };
        let start = self.at + (2 + parts.name.len());
        let item = RawItem {
            tag: parts.tag,
            name: parts.name,
            value: parts.value,
            start,
        };
        self.rest = parts.rest;
        self.at = start + parts.value.len();
        Some(item)
    }
}
