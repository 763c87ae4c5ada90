//! What is known of a document before its values are sealed: which they are, and how long it gets.

ghost use Rattle.std.specs.Prelude.{◌≡◌, ◌+◌, ◌*◌, ◌<◌, ◌≤◌, ◌^◌, [], length, slice_get, IfErr, IfOk};
ghost use Rattle.std.specs.Prelude.{option_and_then};
ghost use Rattle.bson_tree.specs.Spelling.{doc_bytes};
ghost use Rattle.doc_rewrite.specs.LastNames.{name_of};
ghost use Rattle.doc_rewrite.specs.Plans.{AreLong, AreMarksOf, IsTooLong, StandsFor};
ghost use Rattle.doc_rewrite.specs.Sites.{grown, sites_of as sites_by};

use crate::sites::{Sites, site_at, sites_of};
use bson_codec::RawDoc;
use bson_splice::TooLong;
use encrypt_schema::{KeyRef, Mark, Marks, Rows, Span};
use std::marker::Model;

/// The most bytes of a sealed document.
const LONGEST: u32 = 48_000_000;

/// The values of a document that are to be sealed, and how many bytes the sealed document has. It borrows the document,
/// the marks and their rules, and allocates nothing.
#[derive(Drop)]
pub struct Plan<'a> {
    sites: Sites<'a>,
    /// The marks and the rules of the sites; `None` where no value is sealed.
    ruled: Option<(&'a Marks, &'a Rows)>,
    size: u32,
}

impl<'a> Model for Plan<'a> {
    ghost use Rattle.std.specs.Prelude.{◌≤◌, [], option_map, unwrap_or};
    ghost use Rattle.doc_rewrite.specs.Plans.{AreLong, Planned, longest_sealed};

    ghost Value = { Planned };

    ghost view = { λ p. record {
      sites = p.sites;
      marks = unwrap_or (option_map (λ r. r.0.now) p.ruled) [];
      rows = unwrap_or (option_map (λ r. r.1.now) p.ruled) [];
      size = p.size;
    } };

    ghost invariant = { λ p. AreLong p.sites × (p.size ≤ longest_sealed) };
}

impl<'a> Plan<'a> {
    /// How many bytes the sealed document has.
    pub fn output_len(&self) -> usize
        ensures size { result ≡ self.now.size }
        ensures small { result ≤ 48000000 }
    {
        self.size as usize
    }

    /// The values that are to be sealed, in reading order.
    pub fn sites(&self) -> &Sites<'a>
        ensures sites { result.now ≡ self.now.sites }
        ensures long { AreLong self.now.sites }
        ensures small { self.now.size ≤ 48000000 }
    {
        &self.sites
    }

    /// Where the text stands that names the key of the value of this number, counted from 0; `None` where an id does.
    pub(crate) fn name(&self, i: usize) -> Option<Span>
        ensures name { result ≡ option_and_then (name_of self.now.rows) (slice_get self.now.marks i) }
    {
        match self.ruled {
            Some((marks, rows)) => match marks.get(i) {
                Some(mark) => name_of(&mark, rows),
                None => None,
            },
            None => None,
        }
    }
}

/// Where the text stands that names the key of a mark's value; `None` where the mark's rule has the key's id.
fn name_of(mark: &Mark, rows: &Rows) -> Option<Span>
    ensures name { result ≡ name_of rows.now mark.now }
{
    let policy = rows.policy(mark.policy)?;
    match &policy.key {
        KeyRef::Id(_) => None,
        KeyRef::Pointer(_) => mark.name,
    }
}

/// The plan of a document whose marked values are to be sealed, each under its rule. `TooLong` exactly where the sealed
/// document has more than 48,000,000 bytes. It allocates nothing.
pub fn plan_seal<'a>(
    document: &RawDoc<'a>,
    marks: &'a Marks,
    rows: &'a Rows,
) -> Result<Plan<'a>, TooLong>
    requires stands { AreMarksOf rows.now marks.now document.now }
    ensures sites { IfOk result (λ plan. plan.sites ≡ sites_by rows.now document.now marks.now) }
    ensures long { IfOk result (λ plan. AreLong plan.sites) }
    ensures stands { IfOk result (λ plan. StandsFor plan document.now) }
    ensures size { IfOk result (λ plan. plan.size
        ≡ length (doc_bytes document.now.tree) + grown (sites_by rows.now document.now marks.now)) }
    ensures most { IfOk result (λ plan. plan.size ≤ 48000000) }
    ensures too_long { IfErr result (λ _.
        48000000 < length (doc_bytes document.now.tree) + grown (sites_by rows.now document.now marks.now)) }
    ensures above { IfErr result (λ _. IsTooLong (sites_by rows.now document.now marks.now) document.now) }
{
    let sites = sites_of(document, marks, rows);
    let size = document.bytes().len() as u128 + grown(&sites);
    if size > LONGEST as u128 {
        return Err(TooLong);
    }
    Ok(Plan {
        sites,
        ruled: Some((marks, rows)),
        size: size as u32,
    })
}

/// The plan of a document of which no value is sealed. `TooLong` exactly where the document has more than 48,000,000
/// bytes. It allocates nothing.
pub fn plan_clear<'a>(document: &RawDoc<'_>) -> Result<Plan<'a>, TooLong>
    ensures sites { IfOk result (λ plan. plan.sites ≡ []) }
    ensures stands { IfOk result (λ plan. StandsFor plan document.now) }
    ensures size { IfOk result (λ plan. plan.size ≡ length (doc_bytes document.now.tree)) }
    ensures most { IfOk result (λ plan. plan.size ≤ 48000000) }
    ensures too_long { IfErr result (λ _. 48000000 < length (doc_bytes document.now.tree)) }
{
    let size = document.bytes().len();
    if size > LONGEST as usize {
        return Err(TooLong);
    }
    Ok(Plan {
        sites: Sites::none(),
        ruled: None,
        size: size as u32,
    })
}

/// How many bytes more the sealed values have than the values.
fn grown(sites: &Sites<'_>) -> u128
    ensures grown { result ≡ grown sites.now }
    ensures long { AreLong sites.now }
    ensures few { result ≤ 2 ^ 126 }
{
    let mut bytes: u128 = 0;
    for i in 0..sites.len() {
        match site_at(sites, i) {
            Some(site) => {
                let n = site.end.saturating_sub(site.start) as u128;
                bytes += 71 + 16 * (n / 16 + 1) - n;
            }
            None => unreachable!(),
        }
    }
    bytes
}
