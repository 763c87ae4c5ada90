//! The values of a document that are to be sealed, read from its marks and their rules.

ghost use Rattle.std.specs.Prelude.{◌≡◌, ◌+◌, ◌<◌, ◌^◌, ◌∷◌, [], drop, length, option_map, slice_get, IfSome};
ghost use Rattle.std.specs.Prelude.{◌≤◌, unwrap_or, MatchOption};
ghost use Rattle.bson_splice.specs.Spans.{IsNextAt};
ghost use Rattle.payload6.specs.Needs.{Name, need_seen};
ghost use Rattle.doc_rewrite.specs.Keys.{IsLong};
ghost use Rattle.doc_rewrite.specs.Plans.{AreRuled};
ghost use Rattle.doc_rewrite.specs.Sites.{draw, draws_of, site_of as site_by, site_seen, sites_of as sites_by};
ghost use Rattle.doc_rewrite.specs.Sites.{spans_of};

use crate::site::Site;
use bson_codec::RawDoc;
use encrypt_schema::{Algorithm, Mark, Marks, Rows};
use payload6::{Need, need_of};
use std::marker::Model;

/// Marks of a document, of rules that are there, seen as the list of their sites.
#[derive(Drop)]
struct Ruled<'a> {
    document: RawDoc<'a>,
    marks: &'a Marks,
    rows: &'a Rows,
}

impl<'a> Model for Ruled<'a> {
    ghost use Rattle.std.specs.Prelude.{List, length};
    ghost use Rattle.doc_rewrite.specs.Plans.{AreRuled};
    ghost use Rattle.doc_rewrite.specs.Sites.{Site, sites_of};

    ghost Value = { List Site };

    ghost view = { λ r. sites_of r.rows.now r.document r.marks.now };

    ghost invariant = { λ r. AreRuled (length r.rows.now) r.marks.now };
}

impl<'a> Ruled<'a> {
    /// How many marks there are.
    fn len(&self) -> usize
        ensures count { result ≡ length self.now }
    {
        self.marks.len()
    }

    /// The site of the mark of this number, counted from 0.
    fn get(&self, i: usize) -> Option<Site<'a>>
        ensures site { option_map site_seen result ≡ slice_get self.now i }
        ensures long { IfSome result (λ s. IsLong (need_seen s.need)) }
    {
        match self.marks.get(i) {
            Some(mark) => {
                let site = site_of(&self.document, &mark, self.rows);
                Some(site)
            }
            None => None,
        }
    }

    /// Where the value of the mark of this number begins.
    fn start(&self, i: usize) -> Option<usize>
        ensures start { result ≡ option_map (λ s. s.start) (slice_get self.now i) }
    {
        match self.marks.get(i) {
            Some(mark) => Some(mark.start as usize),
            None => None,
        }
    }
}

/// The values of a document that are to be sealed, seen as the list of their sites in reading order. Each site is read
/// from its mark and the mark's rule when it is asked for, so no list of them is allocated.
#[derive(Drop)]
pub struct Sites<'a> {
    /// None where no value is sealed.
    ruled: Option<Ruled<'a>>,
}

impl<'a> Model for Sites<'a> {
    ghost use Rattle.std.specs.Prelude.{List, [], unwrap_or};
    ghost use Rattle.doc_rewrite.specs.Sites.{Site};

    ghost Value = { List Site };

    ghost view = { λ s. unwrap_or s.ruled [] };
}

impl<'a> Sites<'a> {
    /// No value is sealed.
    pub(crate) fn none() -> Sites<'a>
        ensures empty { result ≡ [] }
    {
        Sites { ruled: None }
    }

    /// How many values are to be sealed.
    pub fn len(&self) -> usize
        ensures count { result ≡ length self.now }
    {
        match &self.ruled {
            Some(ruled) => ruled.len(),
            None => 0,
        }
    }

    /// The value of this number, counted from 0; `None` exactly where the number isn't below `len`.
    pub fn get(&self, i: usize) -> Option<Site<'a>>
        ensures site { option_map site_seen result ≡ slice_get self.now i }
        ensures first { MatchOption result (drop i self.now ≡ [])
            (λ s. drop i self.now ≡ site_seen s ∷ drop (i + 1) self.now) }
        ensures long { IfSome result (λ s. IsLong (need_seen s.need)) }
    {
        match &self.ruled {
            Some(ruled) => ruled.get(i),
            None => None,
        }
    }

    /// How many random blocks are drawn as they are sealed: one for each value of the random algorithm.
    pub fn draws(&self) -> usize
        ensures draws { result ≡ draws_of self.now }
    {
        draws_of(self)
    }

    /// Where the value of this number begins.
    pub(crate) fn start(&self, i: usize) -> Option<usize>
        ensures start { result ≡ option_map (λ s. s.start) (slice_get self.now i) }
    {
        match &self.ruled {
            Some(ruled) => ruled.start(i),
            None => None,
        }
    }
}

/// The sites of a document's marks, in their order. It allocates nothing.
pub fn sites_of<'a>(document: &RawDoc<'a>, marks: &'a Marks, rows: &'a Rows) -> Sites<'a>
    requires ruled { AreRuled (length rows.now) marks.now }
    ensures sites { result ≡ sites_by rows.now document.now marks.now }
{
    Sites {
        ruled: Some(Ruled {
            document: document.again(),
            marks,
            rows,
        }),
    }
}

/// The site of this number, counted from 0.
pub(crate) fn site_at<'a>(sites: &Sites<'a>, i: usize) -> Option<Site<'a>>
    ensures first { MatchOption result (drop i sites.now ≡ [])
        (λ s. drop i sites.now ≡ site_seen s ∷ drop (i + 1) sites.now) }
    ensures long { IfSome result (λ s. IsLong (need_seen s.need)) }
    ensures counted { IfSome result (λ s. i + 1 < 2 ^ 64) }
{
    if i < sites.len() { sites.get(i) } else { None }
}

/// How many random blocks are drawn for these values.
fn draws_of(sites: &Sites<'_>) -> usize
    ensures draws { result ≡ draws_of sites.now }
{
    let mut blocks = 0;
    for i in 0..sites.len() {
        match site_at(sites, i) {
            Some(site) => blocks += draw(site.algorithm),
            None => unreachable!(),
        }
    }
    blocks
}

/// How many random blocks are drawn for a value.
fn draw(algorithm: Algorithm) -> usize
    ensures draw { result ≡ draw algorithm }
    ensures one { result ≤ 1 }
{
    match algorithm {
        Algorithm::Deterministic => 0,
        Algorithm::Random => 1,
    }
}

/// Where the next site begins, those before `i` being behind.
pub(crate) fn start_at(sites: &Sites<'_>, i: usize) -> Option<usize>
    ensures next { MatchOption result (spans_of (drop i sites.now) ≡ [])
        (λ at. IsNextAt (spans_of (drop i sites.now)) at) }
{
    sites.start(i)
}

/// The site of a mark.
fn site_of<'a>(document: &RawDoc<'a>, mark: &Mark, rows: &Rows) -> Site<'a>
    requires ruled { mark.now.policy < length rows.now }
    ensures site { site_seen result ≡ site_by rows.now document.now mark.now }
    ensures long { IsLong (need_seen result.need) }
{
    match rows.policy(mark.policy) {
        Some(policy) => Site {
            start: mark.start,
            end: mark.end,
            algorithm: policy.algorithm,
            need: named(need_of(policy, document, mark)),
        },
        None => unreachable!(),
    }
}

/// What names a key; a name of no byte where nothing does.
fn named<'a>(need: Option<Need<'a>>) -> Need<'a>
    ensures need { need_seen result ≡ unwrap_or (option_map need_seen need.entry) (Name []) }
    ensures long { IsLong (need_seen result) }
{
    match need {
        Some(Need::Id(id)) => Need::Id(as_id(id)),
        Some(Need::Name(name)) => Need::Name(name),
        None => Need::Name(&[]),
    }
}

/// The same 16 bytes; contracts then see how many they are.
fn as_id(bytes: [u8; 16]) -> [u8; 16]
    ensures same { result ≡ bytes }
    ensures long { length result ≡ 16 }
{
    bytes
}
