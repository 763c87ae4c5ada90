//! A document with the values of a plan sealed, written into a slice.

ghost use Rattle.std.specs.Prelude.{◌≡◌, drop, length, IfOk, OnErr};
ghost use Rattle.doc_rewrite.specs.Keys.{GivesLongIds, key_in};
ghost use Rattle.doc_rewrite.specs.LastNames.{KeepsLast};
ghost use Rattle.doc_rewrite.specs.Plans.{StandsFor};
ghost use Rattle.doc_rewrite.specs.Sealing.{FellShort, HasKeys, IsSealedWhole, SealsNone, SealsOne};
ghost use Rattle.doc_rewrite.specs.Sites.{draws_of, spans_of};

use crate::iv::iv_for;
use crate::key_table::KeyTable;
use crate::label::Label;
use crate::last_name::{LastName, key_by, last_behind};
use crate::placing::put_sealed;
use crate::planning::Plan;
use crate::sites::{Sites, site_at, start_at};
use bson_codec::{RawDoc, RawItem};
use bson_splice::{Putter, Stopped, splice};
use crypto_hooks::Block256;
use fle_outside::{Entropy, Failed};

/// Values that are sealed one after the other, those before `next` already. `last` is the name that led to a key last.
#[derive(Drop)]
struct Sealing<'a, 'l, 'n, B, N> {
    hooks: &'a B,
    keys: &'a KeyTable,
    plan: &'a Plan<'a>,
    sites: &'a Sites<'a>,
    next: usize,
    last: &'l mut Option<LastName<'a>>,
    entropy: &'n mut N,
}

impl<'a, 'l, 'n, B: Block256, N: Entropy> Putter for Sealing<'a, 'l, 'n, B, N> {
    ghost spans = { λ s. spans_of (drop s.next s.sites.now) };

    ghost puts = { λ a b p.
        SealsOne (key_in a.keys.now) (drop a.next a.sites.now) (drop b.next b.sites.now)
        (N.seen a.entropy.now) (N.seen b.entropy.now) p
        × (b.keys.now ≡ a.keys.now) × (b.entropy.ghost_name ≡ a.entropy.ghost_name) };

    ghost stops = { λ a b.
        SealsNone (drop a.next a.sites.now) (N.seen a.entropy.now) (N.seen b.entropy.now)
        × (b.entropy.ghost_name ≡ a.entropy.ghost_name) };

    ghost ready = { λ s. B.answers s.hooks.now × HasKeys (key_in s.keys.now) (drop s.next s.sites.now)
        × KeepsLast (key_in s.keys.now) s.plan.now s.sites.now s.last.now };

    fn next_start(&self) -> Option<usize> {
        start_at(self.sites, self.next)
    }

    fn put_next(
        &mut self,
        item: &RawItem<'_>,
        out: &mut [u8],
        at: usize,
    ) -> Result<usize, Stopped> {
        match site_at(self.sites, self.next) {
            Some(site) => {
                let name = self.plan.name(self.next);
                let found = key_by(self.keys, *self.last, name, site.need);
                *self.last = last_behind(*self.last, name, found);
                let label = Label {
                    algorithm: site.algorithm,
                    key_id: found.0,
                };
                match iv_for(&label, found.1, item, self.entropy) {
                    Ok(iv) => {
                        let end = put_sealed(self.hooks, found.1, &label, iv, item, out, at);
                        self.next += 1;
                        Ok(end)
                    }
                    Err(Failed) => Err(Stopped),
                }
            }
            None => unreachable!(),
        }
    }
}

/// Writes the document into `out`, which has the plan's length, with the values of the plan sealed: each under the key
/// to which its id or its name leads, and with that key's id, those of the random algorithm with a block each, drawn in
/// reading order. `Failed` where a block couldn't be drawn: `out` may hold anything then. It allocates nothing.
pub fn seal_through<B: Block256, N: Entropy>(
    plan: &Plan<'_>,
    document: &RawDoc<'_>,
    keys: &KeyTable,
    hooks: &B,
    entropy: &mut N,
    out: &mut [u8],
) -> Result<(), Failed>
    requires hooks { B.answers hooks.now }
    requires stands { StandsFor plan.now document.now }
    requires keyed { HasKeys (key_in keys.now) plan.now.sites }
    requires room { length out.old ≡ plan.now.size }
    ensures size { length out.new ≡ length out.old }
    ensures long { GivesLongIds (key_in keys.now) }
    ensures sealed { IfOk result (λ _. IsSealedWhole (key_in keys.now) plan.now.sites document.now
        (N.seen entropy.old) (N.seen entropy.new) out.new) }
    ensures failed { OnErr result (FellShort (N.seen entropy.old) (N.seen entropy.new) (draws_of plan.now.sites)) }
{
    keys.ids();
    let mut last = None;
    let mut sealing = Sealing {
        hooks,
        keys,
        plan,
        sites: plan.sites(),
        next: 0,
        last: &mut last,
        entropy,
    };
    match splice(document, &mut sealing, out) {
        Ok(_) => Ok(()),
        Err(Stopped) => Err(Failed),
    }
}
