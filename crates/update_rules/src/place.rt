//! What documents and arrays are in an update.

ghost use Rattle.update_rules.specs.UpdatePlaces.{UpdateStands, update_station, update_unprotected};

use crate::arguments::judge_argument;
use crate::documents::judge_document;
use crate::operators::judge_operator;
use crate::sets::judge_set;
use bson_codec::{RawDoc, RawItem};
use encrypt_schema::{Cursor, JudgingPlace, Next, Operator, Reason, Rows};

/// What a document is in an update.
#[derive(Clone, Copy, Debug, PartialEq, Eq)]
pub enum UpdatePlace {
    /// A stored document, or a part of one, at a path above protected fields.
    Document(Cursor),
    /// An update with operators.
    Operators,
    /// The argument of `$set` or `$setOnInsert`.
    Sets,
    /// The argument of another operator.
    Argument(Operator),
}

impl JudgingPlace for UpdatePlace {
    ghost station_by = { update_station };

    ghost stands = { UpdateStands };

    fn judge(
        self,
        rows: &Rows,
        document: &RawDoc<'_>,
        k: usize,
        item: &RawItem<'_>,
    ) -> Result<Next<UpdatePlace>, Reason> {
        match self {
            UpdatePlace::Document(at) => judge_document(rows, at, item),
            UpdatePlace::Operators => judge_operator(item),
            UpdatePlace::Sets => judge_set(rows, item),
            UpdatePlace::Argument(operator) => judge_argument(rows, operator, item),
        }
    }

    #[tactic(auto, using(crate::proofs::Wholes::whole_document))]
    fn is_whole(self) -> bool {
        match self {
            UpdatePlace::Document(at) => at.is_root(),
            UpdatePlace::Operators => false,
            UpdatePlace::Sets => false,
            UpdatePlace::Argument(_) => false,
        }
    }

    ghost unprotected = { update_unprotected };
}
