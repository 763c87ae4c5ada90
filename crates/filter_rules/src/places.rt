//! What documents and arrays are in a filter.

ghost use Rattle.std.specs.Prelude.{◌≡◌, ℕ, List, None, Some, IfErr, IfOk, ⊤, take};
ghost use Rattle.encrypt_schema.specs.Commands.Offences.{ruled_offence};
ghost use Rattle.encrypt_schema.specs.Commands.Stations.{Filter, station};
ghost use Rattle.encrypt_schema.specs.Commands.Visits.{entry, names_of, part_visits};
ghost use Rattle.encrypt_schema.specs.Views.Walking.{Begins, MarksPlaces, StandsNext, station_next};
ghost use Rattle.filter_rules.specs.Places.{station_by, unprotected};

use crate::filter::{judge_case, judge_filter};
use crate::operators::{judge_element, judge_test};
use bson_codec::{RawDoc, RawItem};
use encrypt_schema::{JudgingPlace, MarkFault, Marks, Next, Reason, Rows, Subject, mark_elements};

/// What a document or an array is in a filter.
#[derive(Clone, Copy, Debug, PartialEq, Eq)]
pub enum FilterPlace {
    /// A filter.
    Filter,
    /// The array of `$and`, `$or`, `$nor`.
    Cases,
    /// An operator document, which is applied to this.
    Test(Subject),
    /// The array of `$in`, `$nin` in an operator document that is applied to this.
    Elements(Subject),
}

impl JudgingPlace for FilterPlace {
    ghost station_by = { station_by };

    ghost stands = { λ _ _. ⊤ };

    ghost unprotected = { unprotected };

    fn is_whole(self) -> bool {
        match self {
            FilterPlace::Filter => false,
            FilterPlace::Cases => false,
            FilterPlace::Test(_) => false,
            FilterPlace::Elements(_) => false,
        }
    }

    #[tactic(auto, using(crate::proofs::Standing::stands_next))]
    fn judge(
        self,
        rows: &Rows,
        document: &RawDoc<'_>,
        k: usize,
        item: &RawItem<'_>,
    ) -> Result<Next<FilterPlace>, Reason> {
        match self {
            FilterPlace::Filter => judge_filter(rows, item),
            FilterPlace::Cases => judge_case(rows, item),
            FilterPlace::Test(subject) => judge_test(rows, subject, item),
            FilterPlace::Elements(subject) => judge_element(rows, subject, item),
        }
    }
}

/// Appends the marks of a filter in reading order, or tells the first value that is refused. Offsets count from where
/// those of the filter do.
///
/// With `Refused` and `Memory` too the marks begin with those that were there before.
pub fn mark_filter(marks: &mut Marks, rows: &Rows, filter: &RawDoc<'_>) -> Result<(), MarkFault>
    ensures marked { MarksPlaces rows.now (part_visits rows.now Filter filter.now.start filter.now.tree)
        marks.old marks.new result }
    ensures kept { Begins marks.old marks.new }
{
    mark_elements(marks, rows, FilterPlace::Filter, filter)
}
