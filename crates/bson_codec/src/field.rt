//! How a name stands in a document.

ghost use Rattle.std.specs.Prelude.{◌≡◌};
ghost use Rattle.bson_codec.specs.Standings.{field_seen, standing, stands_last};

use crate::borrowed::RawDoc;
use crate::item::RawItem;

/// How a name stands in a document.
#[derive(Drop)]
pub enum Field<'a> {
    /// Not at all.
    Absent,
    /// Once, with this value.
    Once(RawItem<'a>),
    /// Several times.
    Repeated,
}

/// How the name stands among the fields.
#[tactic(auto, unfolding(crate::specs::Standings::standing), using(crate::proofs::Standings::both))]
pub fn find_field<'a>(document: &RawDoc<'a>, word: &[u8]) -> Field<'a>
    ensures found { field_seen result ≡ standing word.now document.now.tree }
{
    let mut found = Field::Absent;
    for item in document.items() {
        if item.name() == word {
            found.add(item);
        }
    }
    found
}

impl<'a> Field<'a> {
    /// One more value of a name that stands like this, behind the others.
    pub fn add(&mut self, item: RawItem<'a>)
        ensures added { field_seen self.new ≡ stands_last (field_seen self.old) item.entry.tree }
    {
        *self = match self {
            Field::Absent => Field::Once(item),
            Field::Once(_) => Field::Repeated,
            Field::Repeated => Field::Repeated,
        };
    }
}
