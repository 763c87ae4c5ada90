//! How much room and how many random bytes a command may want.

ghost use Rattle.std.specs.Prelude.{◌≡◌, ◌≤◌, ◌*◌, ℕ, List, length};
ghost use Rattle.bson_tree.specs.Spelling.{doc_bytes};
ghost use Rattle.bson_tree.specs.Tree.{Items};
ghost use Rattle.context_machine.specs.Rings.{Finder};
ghost use Rattle.encrypt_schema.specs.Language.Collection.{Collection};
ghost use Rattle.fle_c.specs.Calls.{document_limit};
ghost use Rattle.fle_client.specs.CommandSets.{seal_by};
ghost use Rattle.fle_client.specs.declared.commands.CommandSet.{CommandSet};
ghost use Rattle.fle_engine.specs.Rulings.{makes};
ghost use Rattle.fle_stream.specs.Plan.{Plan};

/// A command has at most this many bytes.
const DOCUMENT_LIMIT: usize = 16_777_216;

/// A sealed command has at most this many bytes.
const OUTPUT_LIMIT: usize = 48_000_000;

/// So many values are sealed in one of those at most, since each grows by 72 bytes or more.
const MOST_VALUES: usize = 666_666;

/// How much room and how many random bytes a command may want.
#[repr(C)]
#[derive(Clone, Copy, Drop)]
pub struct Need {
    /// The bytes of its sealed form, at most.
    pub room: usize,
    /// The bytes of the blocks that are drawn for it, at most.
    pub random: usize,
}

/// What a command of so many bytes may want: a value takes at least two bytes beside its own, grows by 72 to 87, and
/// draws a block of 16 at most.
pub(crate) fn most_wanted(size: usize) -> Need
    ensures enough { (set : CommandSet) (keys : Finder) (infos : List Collection) (db : List ℕ) (c : Items)
        (plan : Plan) → length (doc_bytes c) ≤ size → length (doc_bytes c) ≤ document_limit
        → seal_by set keys infos db c ≡ makes plan
        → (plan.size ≤ result.room) × (16 * plan.draws ≤ result.random) }
    ensures close { (result.room ≤ 48000000) × (result.random ≤ 16 * 666666)
        × (result.room ≤ 45 * size) × (result.random ≤ 8 * size) }
{
    let size = size.min(DOCUMENT_LIMIT);
    let values = size.saturating_sub(4) / 2;
    let room = (size + 87 * values).min(OUTPUT_LIMIT);
    let drawn = values.min(MOST_VALUES);
    Need {
        room,
        random: 16 * drawn,
    }
}
