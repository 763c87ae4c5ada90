//! A command with the markings of its protected values, written from its bytes: what isn't marked is copied as it
//! stands.

ghost use Rattle.std.specs.Prelude.{◌≡◌, ◌+◌, ◌<◌, ◌≤◌, ◌^◌, ◌++◌, [], ◌∷◌, length, drop, IfOk, IfSome, MatchOption};
ghost use Rattle.std.specs.Prelude.{OnOk, option_map};
ghost use Rattle.bson_splice.specs.Steps.{StepsBy};
ghost use Rattle.bson_tree.specs.Spelling.{doc_bytes, items_bytes};
ghost use Rattle.bson_tree.specs.Tree.{item as element, no_items};
ghost use Rattle.payload6.specs.Needs.{alternate_name, need_seen};
ghost use Rattle.command_marker.specs.Marked.{marked_by, need_marked};
ghost use Rattle.command_marker.specs.Splices.{left, left_in, next_start, spliced, spliced_in};
ghost use Rattle.command_marker.specs.Written.{AreRuled, growth};

use bson_codec::writing::{append, close, open, put_name};
use bson_codec::{RawDoc, RawItem};
use bson_splice::{Step, step_by};
use bson_tree::{subtypes, types};
use encrypt_schema::{Mark, Marks, Rows};
use fle_outside::Memory;
use payload6::{Need, length_bytes, need_of, put_marking};

/// How many bytes a marking, as it stands in a command, has more than its value and its key's id or name.
const AROUND_MARKING: usize = 30;

/// How many bytes stand in a binary before its contents.
const BINARY_HEAD: usize = 5;

/// The mark of this number, counted from 0; its rule is there.
pub fn next_mark(rows: &Rows, marks: &Marks, next: usize) -> Option<Mark>
    requires ruled { AreRuled rows.now marks.now }
    ensures first { MatchOption result (drop next marks.now ≡ []) (λ m. drop next marks.now
        ≡ m ∷ drop (next + 1) marks.now) }
    ensures inside { IfSome result (λ m. next < length marks.now) }
    ensures ruled { IfSome result (λ m. m.policy < length rows.now) }
{
    marks.get(next)
}

/// What the marking of a mark's value names as its key: a name of no byte where its rule has a pointer that leads to no
/// text, as is so of no accepted command.
pub fn key_of<'a>(rows: &Rows, command: &RawDoc<'a>, mark: &Mark) -> Need<'a>
    requires ruled { mark.now.policy < length rows.now }
    ensures need { need_seen result ≡ need_marked rows.now command.now mark.now }
    ensures inside { length (alternate_name (need_seen result)) ≤ length (doc_bytes command.now.tree) }
{
    match need_of(rows.policy_at(mark.policy), command, mark) {
        Some(need) => need,
        None => Need::Name(&[]),
    }
}

/// How many bytes a marking that names this key, as it stands in a command, has more than its value.
pub(crate) fn growth_of(need: Need<'_>) -> usize
    ensures growth { result ≡ growth (need_seen need.entry) }
    ensures most { result ≤ 46 + length (alternate_name (need_seen need.entry)) }
{
    match need {
        Need::Id(id) => AROUND_MARKING + id.len(),
        Need::Name(name) => AROUND_MARKING + name.len(),
    }
}

/// What becomes of an element of a command whose next mark is this one; `None` where no mark is left.
pub fn step_of<'a>(mark: Option<Mark>, item: &RawItem<'a>) -> Step<'a>
    ensures step { StepsBy (option_map (λ m. m.start) mark) item.now result }
{
    match mark {
        Some(mark) => step_by(Some(mark.start as usize), item),
        None => Step::Keep,
    }
}

/// Appends an element as it stands.
fn put_raw(out: &mut Vec<u8>, item: &RawItem<'_>) -> Result<(), Memory>
    ensures element { OnOk result (out.new.items ≡ out.old.items
        ++ items_bytes (element item.now.name item.now.tree no_items)) }
{
    put_name(out, item.tag(), item.name())?;
    append(out, item.value())?;
    Ok(())
}

/// Appends an element with the marking by this mark of the command in the place of its value.
fn put_marked(
    out: &mut Vec<u8>,
    rows: &Rows,
    command: &RawDoc<'_>,
    mark: &Mark,
    item: &RawItem<'_>,
) -> Result<(), Memory>
    requires ruled { mark.now.policy < length rows.now }
    ensures element { OnOk result (out.new.items ≡ out.old.items ++ items_bytes
        (element item.now.name (marked_by rows.now command.now mark.now item.now.tree) no_items)) }
{
    let algorithm = rows.policy_at(mark.policy).algorithm;
    let _ = command.bytes();
    let need = key_of(rows, command, mark);
    let size = item.value().len() + growth_of(need) - BINARY_HEAD;
    put_name(out, types::BINARY, item.name())?;
    append(out, &length_bytes(size))?;
    append(out, &[subtypes::ENCRYPTED])?;
    put_marking(out, item, algorithm, need)?;
    Ok(())
}

/// Where the mark of this number begins, counted from 0; `None` where there is none.
fn start_of(marks: &Marks, next: usize) -> Option<usize>
    ensures start { result ≡ next_start (drop next marks.now) }
{
    match marks.get(next) {
        Some(mark) => Some(mark.start as usize),
        None => None,
    }
}

/// Appends elements as they stand; mostly there are none between two marks, so that nothing is called then.
fn put_skipped(out: &mut Vec<u8>, bytes: &[u8]) -> Result<(), Memory>
    ensures appended { OnOk result (out.new.items ≡ out.old.items ++ bytes.now) }
{
    if bytes.is_empty() {
        return Ok(());
    }
    append(out, bytes)?;
    Ok(())
}

/// Appends an element of a command, marked from the mark of this number on. It gives the number of the first mark
/// behind it.
#[cycle(splice)]
fn put_item<'a>(
    out: &mut Vec<u8>,
    rows: &Rows,
    marks: &Marks,
    command: &RawDoc<'a>,
    next: usize,
    item: &RawItem<'a>,
) -> Result<usize, Memory>
    requires ruled { AreRuled rows.now marks.now }
    requires few { length marks.now < 2 ^ 31 }
    requires room { length out.old.items + length
        (items_bytes (element item.now.name (spliced_in (marked_by rows.now command.now) item.now.start
        (drop next marks.now) item.now.tree) no_items)) < 2 ^ 31 }
    ensures element { OnOk result (out.new.items ≡ out.old.items
        ++ items_bytes (element item.now.name (spliced_in (marked_by rows.now command.now) item.now.start
        (drop next marks.now) item.now.tree) no_items)) }
    ensures left { IfOk result (λ n. drop n marks.now ≡ left_in item.now.start (drop next marks.now) item.now.tree) }
{
    let mark = next_mark(rows, marks, next);
    match step_of(mark, item) {
        Step::Keep => {
            put_raw(out, item)?;
            Ok(next)
        }
        Step::Put => match mark {
            Some(mark) => {
                put_marked(out, rows, command, &mark, item)?;
                Ok(next + 1)
            }
            None => unreachable!(),
        },
        Step::Open(document) => {
            put_name(out, item.tag(), item.name())?;
            let behind = put_document(out, rows, marks, command, next, &document)?;
            Ok(behind)
        }
    }
}

/// Appends a document of a command, or the command, marked from the mark of this number on. It gives the number of the
/// first mark behind it.
#[cycle(splice)]
pub(crate) fn put_document<'a>(
    out: &mut Vec<u8>,
    rows: &Rows,
    marks: &Marks,
    command: &RawDoc<'a>,
    next: usize,
    document: &RawDoc<'a>,
) -> Result<usize, Memory>
    requires ruled { AreRuled rows.now marks.now }
    requires few { length marks.now < 2 ^ 31 }
    requires room { length out.old.items + length
        (doc_bytes (spliced (marked_by rows.now command.now) (document.now.start + 4) (drop next marks.now)
        document.now.tree)) < 2 ^ 31 }
    ensures document { OnOk result (out.new.items
        ≡ out.old.items ++ doc_bytes (spliced (marked_by rows.now command.now) (document.now.start + 4)
        (drop next marks.now) document.now.tree)) }
    ensures left { IfOk result (λ n. drop n marks.now
        ≡ left (document.now.start + 4) (drop next marks.now) document.now.tree) }
{
    let at = out.len();
    open(out)?;
    let behind = put_items(out, rows, marks, command, next, document)?;
    close(out, at)?;
    Ok(behind)
}

/// Appends the elements of a document of a command, marked from the mark of this number on. It gives the number of the
/// first mark behind them.
#[cycle(splice)]
fn put_items<'a>(
    out: &mut Vec<u8>,
    rows: &Rows,
    marks: &Marks,
    command: &RawDoc<'a>,
    next: usize,
    document: &RawDoc<'a>,
) -> Result<usize, Memory>
    requires ruled { AreRuled rows.now marks.now }
    requires few { length marks.now < 2 ^ 31 }
    requires room { length out.old.items + length
        (items_bytes (spliced (marked_by rows.now command.now) (document.now.start + 4) (drop next marks.now)
        document.now.tree)) < 2 ^ 31 }
    ensures elements { OnOk result (out.new.items
        ≡ out.old.items ++ items_bytes (spliced (marked_by rows.now command.now) (document.now.start + 4)
        (drop next marks.now) document.now.tree)) }
    ensures left { IfOk result (λ n. drop n marks.now
        ≡ left (document.now.start + 4) (drop next marks.now) document.now.tree) }
{
    let mut items = document.items();
    let mut behind = next;
    loop {
        let (skipped, met) = items.skip_to(start_of(marks, behind));
        put_skipped(out, skipped)?;
        match met {
            Some(item) => behind = put_item(out, rows, marks, command, behind, &item)?,
            None => return Ok(behind),
        }
    }
}
