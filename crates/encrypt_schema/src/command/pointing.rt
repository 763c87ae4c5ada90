//! The rules' pointers as they are read in one document: each is looked up once, however many rules have it and values
//! ask for it.

ghost use Rattle.std.specs.Prelude.{◌≡◌, ◌<◌, ◌==◌, ◌&&◌, ℕ, true, None, Some, IfErr, IfOk, IfSome, length};
ghost use Rattle.std.specs.Prelude.{if◌then◌else◌};
ghost use Rattle.encrypt_schema.specs.Commands.Offences.{pointer_offence};
ghost use Rattle.encrypt_schema.specs.Commands.Pointers.{nth_span};
ghost use Rattle.encrypt_schema.specs.Commands.Stations.{Store};
ghost use Rattle.encrypt_schema.specs.Views.Pointing.{Read, targets_read};
ghost use Rattle.encrypt_schema.specs.Views.Slots.{nth_known};

use crate::command::marks::Span;
use crate::command::pointers::name_under;
use crate::command::reason::Reason;
use crate::path::rows::Rows;
use crate::path::slots::nth_slot;
use crate::schema::policy::KeyRef;
use bson_codec::RawDoc;
use std::alloc::Global;
use std::marker::Model;

/// Rules, and the document from which their pointers are read, where there is one. No pointer is looked up twice,
/// unless memory runs out.
#[derive(Drop)]
pub(crate) struct Pointing<'r, 'd> {
    rows: &'r Rows,
    /// The slot of each rule.
    slots: &'r [Option<u32>],
    root: Option<RawDoc<'d>>,
    /// By a slot, where the text stands to which the pointer leads, if it was looked up.
    names: Vec<Option<Span>>,
}

impl<'r, 'd> Model for Pointing<'r, 'd> {
    ghost use Rattle.encrypt_schema.specs.Views.Pointing.{AreKept, Read, coded_read};

    ghost Value = { Read };

    ghost coded = { coded_read };

    ghost view = { λ p. record { rows = p.rows.now; root = p.root } };

    ghost invariant = { λ p. AreKept p.rows.now p.root p.slots.now p.names.items };
}

impl<'r, 'd> Pointing<'r, 'd> {
    /// Pointers are read from this document, where there is one. It allocates nothing.
    pub(crate) fn new(alloc: Global, rows: &'r Rows, root: Option<RawDoc<'d>>) -> Pointing<'r, 'd>
        ensures is { result ≡ record { rows = rows.now; root = root.entry } }
    {
        Pointing {
            rows,
            slots: rows.slots(),
            root,
            names: Vec::new(alloc),
        }
    }

    /// The rules.
    pub(crate) fn rows(&self) -> &'r Rows
        ensures rows { result.now ≡ self.now.rows }
    {
        self.rows
    }

    /// Where the text stands that names the key of the rule of this number, if its pointer was looked up.
    #[tactic(auto, using(crate::proofs::Commands::Lookups::kept_there))]
    fn found(&self, i: u32) -> Option<Span>
        ensures found { IfSome result (λ name. Some name ≡ nth_span i (targets_read self.now)) }
    {
        let slot = nth_slot(self.slots, i)?;
        let name = nth_name(&self.names, slot)?;
        Some(name)
    }

    /// Keeps where it stands, if the rule has a slot and there is memory for it.
    fn keep(&mut self, i: u32, name: Span)
        requires is { Some name ≡ nth_span i (targets_read self.old) }
        ensures same { self.new ≡ self.old }
    {
        if let Some(slot) = nth_slot(self.slots, i) {
            let _ = put_name(&mut self.names, slot, name);
        }
    }

    /// Whether no text names the key of the rule of this number, since it stands by its id, or there is no such rule.
    #[tactic(auto, using(crate::proofs::Commands::Lookups::by_ids))]
    fn is_by_id(&self, i: u32) -> bool
        ensures nameless { result ≡ true → None ≡ nth_span i (targets_read self.now) }
        ensures clean { result ≡ true → None ≡ pointer_offence self.now.rows (targets_read self.now) (Store i) }
    {
        match self.rows.policy(i) {
            Some(policy) => match &policy.key {
                KeyRef::Id(_) => true,
                KeyRef::Pointer(_) => false,
            },
            None => true,
        }
    }

    /// Where the text stands that names the key of the rule of this number, where its key is a pointer; `PointerBad`
    /// where the rule has a pointer and its target isn't there.
    pub(crate) fn name(&mut self, i: u32) -> Result<Option<Span>, Reason>
        ensures name { IfOk result (λ name. name ≡ nth_span i (targets_read self.old)) }
        ensures clean { IfOk result (λ _. None ≡ pointer_offence self.old.rows (targets_read self.old) (Store i)) }
        ensures refused { IfErr result (λ reason.
            Some reason ≡ pointer_offence self.old.rows (targets_read self.old) (Store i)) }
        ensures same { self.new ≡ self.old }
    {
        if self.is_by_id(i) {
            Ok(None)
        } else {
            self.look_up(i)
        }
    }

    /// The same, looked up where it wasn't before.
    #[inline(never)]
    #[tactic(auto, using(crate::proofs::Commands::Lookups::found_clean))]
    fn look_up(&mut self, i: u32) -> Result<Option<Span>, Reason>
        ensures name { IfOk result (λ name. name ≡ nth_span i (targets_read self.old)) }
        ensures clean { IfOk result (λ _. None ≡ pointer_offence self.old.rows (targets_read self.old) (Store i)) }
        ensures refused { IfErr result (λ reason.
            Some reason ≡ pointer_offence self.old.rows (targets_read self.old) (Store i)) }
        ensures same { self.new ≡ self.old }
    {
        if let Some(name) = self.found(i) {
            return Ok(Some(name));
        }
        match name_under(self.rows, &self.root, i) {
            Ok(Some(name)) => {
                self.keep(i, name);
                Ok(Some(name))
            }
            Ok(None) => Ok(None),
            Err(reason) => Err(reason),
        }
    }
}

/// Where the text stands that is kept for a slot.
fn nth_name(names: &Vec<Option<Span>>, slot: u32) -> Option<Span>
    ensures name { result ≡ nth_known names.now.items slot }
{
    let slot = slot as usize;
    if slot < names.len() {
        names[slot]
    } else {
        None
    }
}

/// Keeps for a slot where the text stands, and tells whether there was memory for it.
fn put_name(names: &mut Vec<Option<Span>>, slot: u32, name: Span) -> bool
    ensures put { (s : ℕ) → nth_known names.new.items s
        ≡ (if result && s == slot then Some name else nth_known names.old.items s) }
{
    let slot = slot as usize;
    if !reach_slot(names, slot) {
        return false;
    }
    names[slot] = Some(name);
    true
}

/// Makes a place for a slot, and for those before it, and tells whether there was memory for it.
#[tactic(auto, using(crate::proofs::Commands::Lookups::known_longer))]
fn reach_slot(names: &mut Vec<Option<Span>>, slot: usize) -> bool
    ensures same { (s : ℕ) → nth_known names.new.items s ≡ nth_known names.old.items s }
    ensures there { result ≡ true → slot < length names.new.items }
{
    while names.len() <= slot {
        if names.push(None).is_err() {
            return false;
        }
    }
    true
}
