//! What the values in a schema are to it.

ghost use Rattle.std.specs.Prelude.{◌≡◌, ◌==◌, List, ℕ, if◌then◌else◌};
ghost use Rattle.bson_tree.specs.Tree.{Items, tag_of};
ghost use Rattle.encrypt_schema.specs.Language.Schemas.{last_part, part_by, part_of, schema, schemas};
ghost use Rattle.encrypt_schema.specs.Views.Seen.{context_at, part_at, path_below};

use crate::schema::context::{Context, Part};
use crate::schema::keyword::{Form, keyword_of};
use crate::schema::rules::states_patterns;
use bson_codec::{RawDoc, RawItem, is_document};

/// What a keyword's value is to its schema.
fn part_by<'a>(
    context: Context<'a>,
    schema: &RawDoc<'_>,
    keyword: Option<(usize, Form)>,
    item: &RawItem<'_>,
) -> Part<'a>
    ensures { (path : List (List ℕ)) → part_at path schema.now.tree result
        ≡ part_by (context_at path context.entry) schema.now.tree (tag_of item.now.tree) keyword }
{
    match keyword {
        Some((_, Form::Properties)) => Part::Properties(context.below_root()),
        Some((_, Form::PatternProperties)) => Part::Schemas(context.bad()),
        Some((_, Form::AdditionalProperties)) => last_part(context, schema),
        Some((_, Form::AdditionalItems)) => Part::Schema(context.bad()),
        Some((_, Form::Items)) => items_part(context.bad(), item),
        Some((_, Form::Combination)) => Part::Schemas(context.bad()),
        Some((_, Form::Not)) => Part::Schema(context.bad()),
        Some((_, Form::Dependencies)) => Part::Schemas(context.bad()),
        _ => Part::Nothing,
    }
}

/// What the value of `additionalProperties` is to its schema.
#[tactic(auto, unfolding(crate::specs::Language::Schemas::last_part))]
fn last_part<'a>(context: Context<'a>, schema: &RawDoc<'_>) -> Part<'a>
    ensures { (path : List (List ℕ)) → part_at path schema.now.tree result
        ≡ last_part (context_at path context.entry) schema.now.tree }
{
    if context.position.has_last(states_patterns(schema)) {
        Part::Last(context.in_last())
    } else {
        Part::Schema(context.bad())
    }
}

/// What the value of `items` is to its schema.
fn items_part<'a>(context: Context<'a>, item: &RawItem<'_>) -> Part<'a>
    ensures { (path : List (List ℕ)) (is : Items) → part_at path is result
        ≡ (if tag_of item.now.tree == 3 then schema (context_at path context.entry)
        else schemas (context_at path context.entry)) }
{
    if is_document(item) {
        Part::Schema(context)
    } else {
        Part::Schemas(context)
    }
}

/// What an element of a document is to the part of a schema that this is.
pub(crate) fn part_of<'a>(part: Part<'a>, document: &RawDoc<'_>, item: &RawItem<'_>) -> Part<'a>
    ensures { (path : List (List ℕ)) (is : Items) →
        part_at (path_below part.entry item.now.name path) document.now.tree result
        ≡ part_of (part_at path is part.entry) document.now.tree item.now.name (tag_of item.now.tree) }
{
    match part {
        Part::Nothing => Part::Nothing,
        Part::Last(_) => Part::Nothing,
        Part::Schema(context) => part_by(context, document, keyword_of(item.name()), item),
        Part::Properties(context) => Part::Schema(context),
        Part::Schemas(context) => if is_document(item) {
            Part::Schema(context)
        } else {
            Part::Nothing
        },
    }
}
